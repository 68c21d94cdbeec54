//! Calls of a file of pages as data: steps with the answers that they are to have, and what plays them.
use block_device::BlockDevice;
use page_file::{Fault, PageFile, Version};
use std::alloc::Global;

/// A call of a file of pages. Each that changes it opens the gate first.
#[derive(Clone, Copy, Debug, PartialEq, Eq)]
pub enum Step {
    /// Reads the page of this number, and answers the byte that it has throughout, or `MIXED`.
    Page(u32),
    /// Reads the catalog, and answers its first byte where the others are zeros, or `MIXED`.
    Catalog,
    /// Fills the page of this number with this byte.
    Write(u32, u8),
    /// Gives out a page, and answers its number.
    Allocate,
    /// Frees the page of this number.
    Free(u32),
    /// Answers 1 if these are the free pages, the first one first, and else 0.
    FreePages(&'static [u32]),
    Flush,
    Settle,
    /// Settles, and then checks the file again.
    CheckAgain,
    /// Raises the version to 3.
    Raise,
    /// Answers the number of the version.
    Version,
    /// Answers the number of the next new page.
    Next,
}

/// What a step answers, 0 where its call answers nothing.
pub type Answer = Result<u64, Fault>;

/// The answer of a step whose call answers nothing.
pub const DONE: Answer = Ok(0);

// In place of a byte, where a page has several.
const MIXED: u64 = 256;

/// Steps, each with the answer that it is to have.
pub type Steps = &'static [(Step, Answer)];

/// Takes the steps, up to the first one that has another answer: its place among them, and its answer.
pub fn play<D: BlockDevice>(
    file: &mut PageFile<D>,
    alloc: Global,
    steps: Steps,
) -> Option<(usize, Answer)> {
    for (place, &(step, want)) in steps.iter().enumerate() {
        let answer = take(file, alloc, step);
        if answer != want {
            return Some((place, answer));
        }
    }
    None
}

// Takes a step.
fn take<D: BlockDevice>(file: &mut PageFile<D>, alloc: Global, step: Step) -> Answer {
    match step {
        Step::Page(n) => read(file, n),
        Step::Catalog => read_catalog(file),
        Step::Allocate => give_out(file),
        Step::FreePages(pages) => are_free(file, alloc, pages),
        Step::Version => Ok(match file.version() {
            Version::Two => 2,
            Version::Three => 3,
        }),
        Step::Next => Ok(u64::from(file.next_number())),
        call => match make(file, call) {
            Ok(()) => DONE,
            Err(fault) => Err(fault),
        },
    }
}

// The byte that a page has throughout.
fn read<D: BlockDevice>(file: &mut PageFile<D>, n: u32) -> Answer {
    let mut page = [0; 4096];
    file.read(n, &mut page)?;
    if page == [page[0]; 4096] {
        Ok(u64::from(page[0]))
    } else {
        Ok(MIXED)
    }
}

// The first byte of the catalog, where the others are zeros.
fn read_catalog<D: BlockDevice>(file: &mut PageFile<D>) -> Answer {
    let mut page = [9; 4096];
    file.read(2, &mut page)?;
    if page[1..] == [0; 4095] {
        Ok(u64::from(page[0]))
    } else {
        Ok(MIXED)
    }
}

// Gives out a page.
fn give_out<D: BlockDevice>(file: &mut PageFile<D>) -> Answer {
    file.begin_change()?;
    match file.allocate() {
        Ok(n) => Ok(u64::from(n)),
        Err(fault) => Err(fault),
    }
}

// Whether these are the free pages.
fn are_free<D: BlockDevice>(file: &mut PageFile<D>, alloc: Global, pages: &[u32]) -> Answer {
    match file.free_pages(alloc) {
        Ok(found) => Ok(u64::from(*found.as_slice() == *pages)),
        Err(fault) => Err(fault),
    }
}

// Makes a call that answers nothing.
fn make<D: BlockDevice>(file: &mut PageFile<D>, call: Step) -> Result<(), Fault> {
    match call {
        Step::Flush => file.flush(),
        Step::Settle => file.settle(),
        Step::CheckAgain => {
            file.settle()?;
            file.check_again()
        }
        change => change_by(file, change),
    }
}

// Opens the gate, and makes a change that answers nothing.
fn change_by<D: BlockDevice>(file: &mut PageFile<D>, change: Step) -> Result<(), Fault> {
    file.begin_change()?;
    match change {
        Step::Write(n, byte) => file.write(n, &[byte; 4096]),
        Step::Free(n) => file.free(n),
        _ => {
            file.raise_version();
            Ok(())
        }
    }
}
