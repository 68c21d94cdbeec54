//! The pages that a walk over pages has come to.

ghost use Rattle.std.specs.Prelude.{◌≡◌, ◌⊎◌, ◌++◌, ◌∷◌, [], ◌+◌, ◌<◌, ◌≤◌, IfErr, IfOk};
ghost use Rattle.std.specs.Prelude.{IsErrOf, OnErr, OnOk, length};
ghost use Rattle.page_file.specs.declared.fault.Fault.TheVariants as fault;
ghost use Rattle.node_page.specs.Visits.{AreMarked, times_in};

use page_file::Fault;
use std::alloc::Allocator;

/// The pages visited so far, none of them twice, in their order, and a mark for each page number.
#[derive(Drop)]
pub struct Visits<H: Allocator> {
    /// The pages in the order in which they were visited.
    pub pages: Vec<u32, H>,
    /// Whether the page of each number was visited.
    pub marks: Vec<bool, H>,
    ghost marked: { AreMarked pages.items marks.items },
}

impl<H: Allocator + Copy> Visits<H> {
    /// No page yet, of those with numbers below `next`.
    pub fn new(alloc: H, next: u32) -> Result<Visits<H>, Fault>
        ensures none { IfOk result (λ visits. visits.pages.items ≡ []) }
        ensures marks { IfOk result (λ visits. length visits.marks.items ≡ next) }
        ensures memory { IfErr result (λ f. f ≡ fault.Memory) }
    {
        let marks = Vec::from_elem(alloc, false, next as usize)?;
        let pages = Vec::new(alloc);
        Ok(Visits { pages, marks })
    }

    /// Visits a page. One that was visited before is `Damaged`, and so is a number that is not below `next`.
    pub fn visit(&mut self, page: u32) -> Result<(), Fault>
        ensures added { OnOk result (self.new.pages.items ≡ self.old.pages.items ++ page ∷ []) }
        ensures marks { length self.new.marks.items ≡ length self.old.marks.items }
        ensures unchanged { OnErr result (self.new.pages.items ≡ self.old.pages.items) }
        ensures first { times_in page self.old.pages.items ≡ 0 → page < length self.old.marks.items
            → IfErr result (λ f. f ≡ fault.Memory) }
        ensures again { (0 < times_in page self.old.pages.items) ⊎ (length self.old.marks.items ≤ page)
            → IsErrOf result (fault.Damaged page) }
        ensures faults { IfErr result (λ f. (f ≡ fault.Memory) ⊎ (f ≡ fault.Damaged page)) }
    {
        match self.marks.get(page as usize) {
            Some(false) => {}
            _ => return Err(Fault::Damaged(page)),
        }
        self.pages.push(page)?;
        self.marks[page as usize] = true;
        Ok(())
    }

    /// The pages in the order in which they were visited.
    pub fn into_pages(self) -> Vec<u32, H>
        ensures { result ≡ self.pages }
    {
        let Visits { pages, marks: _ } = self;
        pages
    }
}
