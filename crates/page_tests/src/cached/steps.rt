//! Calls of a cache as data: steps with the answers that they are to have, and what plays them.
use block_device::BlockDevice;
use page_cache::PageCache;
use page_cache::laws::a_page_is_lent_and_comes_back;
use page_file::{Fault, Version};
use std::alloc::Allocator;

/// A call of a cache. Each that changes pages opens the gate first.
#[derive(Clone, Copy, Debug, PartialEq, Eq)]
pub enum Step {
    /// Lends the page of this number, and answers the byte that it has throughout, or `MIXED`.
    Page(u32),
    /// Answers the first byte of the page of this number.
    First(u32),
    /// Puts the page of this number with this byte throughout.
    Put(u32, u8),
    /// Changes the page of this number where it lies to this byte throughout, and answers what it had first.
    Edit(u32, u8),
    /// Gives out a page, and answers its number.
    Allocate,
    /// Frees the page of this number.
    Free(u32),
    /// Answers 1 if these are the free pages, the first one first, and else 0.
    FreePages(&'static [u32]),
    Flush,
    Settle,
    /// Settles, and then checks the file again.
    CheckAgain,
    /// Raises the version to 3.
    Raise,
    /// Answers the number of the version.
    Version,
    /// Answers the number of the next new page.
    Next,
    /// Answers the count of looks.
    Looks,
}

/// What a step answers, 0 where its call answers nothing.
pub type Answer = Result<u64, Fault>;

/// The answer of a step whose call answers nothing.
pub const DONE: Answer = Ok(0);

// In place of a byte, where a page has several.
const MIXED: u64 = 256;

/// Steps, each with the answer that it is to have.
pub type Steps = &'static [(Step, Answer)];

/// Takes the steps, up to the first one that has another answer: its place among them, and its answer.
pub fn play<D: BlockDevice, A: Allocator + Copy>(
    cache: &mut PageCache<D, A>,
    alloc: A,
    steps: Steps,
) -> Option<(usize, Answer)> {
    for (place, &(step, want)) in steps.iter().enumerate() {
        let answer = take(cache, alloc, step);
        if answer != want {
            return Some((place, answer));
        }
    }
    None
}

/// Takes the steps so many times, up to the first refusal.
pub fn repeat<D: BlockDevice, A: Allocator + Copy>(
    cache: &mut PageCache<D, A>,
    alloc: A,
    steps: &[Step],
    times: u32,
) -> Answer {
    for _ in 0..times {
        for &step in steps {
            take(cache, alloc, step)?;
        }
    }
    DONE
}

/// Takes a step.
pub fn take<D: BlockDevice, A: Allocator + Copy>(
    cache: &mut PageCache<D, A>,
    alloc: A,
    step: Step,
) -> Answer {
    match step {
        Step::Page(n) => lend(cache, n),
        Step::First(n) => first(cache, n),
        Step::Edit(n, byte) => edit(cache, n, byte),
        Step::Allocate => give_out(cache),
        Step::FreePages(pages) => are_free(cache, alloc, pages),
        Step::Version => Ok(match cache.version() {
            Version::Two => 2,
            Version::Three => 3,
        }),
        Step::Next => Ok(u64::from(cache.next_number())),
        Step::Looks => Ok(cache.looks()),
        change => match make(cache, change) {
            Ok(()) => DONE,
            Err(fault) => Err(fault),
        },
    }
}

// The first byte of a page.
fn first<D: BlockDevice, A: Allocator + Copy>(cache: &mut PageCache<D, A>, n: u32) -> Answer {
    match a_page_is_lent_and_comes_back(cache, n) {
        Ok(byte) => Ok(u64::from(byte)),
        Err(fault) => Err(fault),
    }
}

// Whether these are the free pages.
fn are_free<D: BlockDevice, A: Allocator + Copy>(
    cache: &mut PageCache<D, A>,
    alloc: A,
    pages: &[u32],
) -> Answer {
    match cache.free_pages(alloc) {
        Ok(found) => Ok(u64::from(*found.as_slice() == *pages)),
        Err(fault) => Err(fault),
    }
}

// The byte that a page is lent with throughout.
fn lend<D: BlockDevice, A: Allocator + Copy>(cache: &mut PageCache<D, A>, n: u32) -> Answer {
    let page = cache.page(n)?;
    if *page == [page[0]; 4096] {
        Ok(u64::from(page[0]))
    } else {
        Ok(MIXED)
    }
}

// Gives out a page.
fn give_out<D: BlockDevice, A: Allocator + Copy>(cache: &mut PageCache<D, A>) -> Answer {
    cache.begin_change()?;
    match cache.allocate() {
        Ok(n) => Ok(u64::from(n)),
        Err(fault) => Err(fault),
    }
}

// Fills a page where it lies with a byte, and answers what it had first.
fn edit<D: BlockDevice, A: Allocator + Copy>(
    cache: &mut PageCache<D, A>,
    n: u32,
    byte: u8,
) -> Answer {
    cache.begin_change()?;
    cache.edit(n, |page: &mut [u8; 4096]| {
        let had = u64::from(page[0]);
        *page = [byte; 4096];
        had
    })
}

// Makes a call that answers nothing.
fn make<D: BlockDevice, A: Allocator + Copy>(
    cache: &mut PageCache<D, A>,
    call: Step,
) -> Result<(), Fault> {
    match call {
        Step::Flush => cache.flush(),
        Step::Settle => cache.settle(),
        Step::CheckAgain => {
            cache.settle()?;
            cache.check_again()
        }
        change => change_by(cache, change),
    }
}

// Opens the gate, and makes a change that answers nothing.
fn change_by<D: BlockDevice, A: Allocator + Copy>(
    cache: &mut PageCache<D, A>,
    change: Step,
) -> Result<(), Fault> {
    cache.begin_change()?;
    match change {
        Step::Put(n, byte) => cache.put(n, &[byte; 4096]),
        Step::Free(n) => cache.free(n),
        _ => {
            cache.raise_version();
            Ok(())
        }
    }
}
