//! Tests of what no clause says: that calls succeed, how files are opened and locked, what the
//! system's files hold, and what a call answers that fails.
use crate::failing::{Calls, FailingFile};
use crate::steps::Step::{Begin, Blocks, Read, Sync, Write};
use crate::steps::{DONE, FAILED, Other, Steps, first_other};
use crate::turns::Turn::{Length, Opening};
use crate::turns::{How, Opened, Part, Turn, length_of, opening, played};
use block_device::{DeviceError, MemoryDevice};
use file_device::{
    BlocksFile, FileDevice, OpenError, copy_path, journal_path, make_anew, open_beside, open_file,
    open_reader, open_shared, remove_journal, replace_journal,
};
use read_only_device::BlockReader;
use std::alloc::Global;
use std::test::Fail;
use std::{fs, io};

const IN_USE: Opened = Err(OpenError::InUse);

// The file at "file_tests/f" has 5000 sevens before, and the others are not there.
const PARTS: [Part; 13] = [
    Part {
        about: "a file is made",
        path: "file_tests_a",
        how: How::Made,
        turns: &[Turn::Steps(TWO_BLOCKS)],
    },
    Part {
        about: "and opened again",
        path: "file_tests_a",
        how: How::Changed,
        turns: &[
            Turn::Steps(&[(Blocks, Ok(2)), (Read(0), Ok(3)), (Read(1), Ok(2))]),
            Length(Some(8192)),
        ],
    },
    Part {
        about: "a file is made in a folder",
        path: "file_tests/c",
        how: How::Made,
        turns: &[Turn::Steps(&[(Write(0, 1), DONE)])],
    },
    Part {
        about: "and is not made anew",
        path: "file_tests/c",
        how: How::Made,
        turns: &[Turn::Steps(&[(Blocks, Ok(1)), (Read(0), Ok(1))])],
    },
    // One writer, or many readers: each open of a file has a lock of its own, also of one program.
    Part {
        about: "a file that may be written is locked until it is closed",
        path: "file_tests/e",
        how: How::Made,
        turns: &[
            Turn::Steps(&[(Write(0, 1), DONE)]),
            Opening(How::Made, IN_USE),
            Opening(How::Changed, IN_USE),
            Opening(How::Read, IN_USE),
            Turn::Steps(&[(Read(0), Ok(1))]),
        ],
    },
    Part {
        about: "and one that is only read against writers alone",
        path: "file_tests/e",
        how: How::Read,
        turns: &[
            Opening(How::Read, Ok(1)),
            Opening(How::Changed, IN_USE),
            Opening(How::Made, IN_USE),
            Turn::Steps(&[(Read(0), Ok(1))]),
        ],
    },
    Part {
        about: "until it is closed",
        path: "file_tests/e",
        how: How::Changed,
        turns: &[Turn::Steps(&[(Blocks, Ok(1))])],
    },
    Part {
        about: "a lock that is shared lets in those that share it",
        path: "file_tests/e",
        how: How::Shared,
        turns: &[
            Opening(How::Read, Ok(1)),
            Opening(How::Shared, Ok(1)),
            Opening(How::Changed, IN_USE),
            Turn::Steps(&[(Read(0), Ok(1))]),
        ],
    },
    Part {
        about: "and so does a reader's",
        path: "file_tests/e",
        how: How::Read,
        turns: &[Opening(How::Shared, Ok(1))],
    },
    Part {
        about: "and one that is held alone does not",
        path: "file_tests/e",
        how: How::Changed,
        turns: &[Opening(How::Shared, IN_USE)],
    },
    // It reads as a device that can write reads, the end of the last block too.
    Part {
        about: "no write of a device over a file that is only read is made",
        path: "file_tests/f",
        how: How::Read,
        turns: &[
            Turn::Steps(&[
                (Blocks, Ok(2)),
                (Write(0, 1), FAILED),
                (Write(2, 1), FAILED),
                (Sync, DONE),
                (Blocks, Ok(2)),
                (Read(0), Ok(7)),
                (Begin(1, 904), Ok(7)),
            ]),
            Length(Some(5000)),
        ],
    },
    Part {
        about: "a last block that is cut short ends in zeros",
        path: "file_tests/f",
        how: How::Changed,
        turns: &[Turn::Steps(&[
            (Blocks, Ok(2)),
            (Begin(1, 904), Ok(7)),
            (Write(2, 5), DONE),
            (Begin(1, 904), Ok(7)),
            (Blocks, Ok(3)),
        ])],
    },
    Part {
        about: "a journal is locked",
        path: "file_tests/j-journal",
        how: How::Made,
        turns: &[Length(Some(0)), Opening(How::Made, IN_USE)],
    },
];

// Two blocks are written into an empty device.
const TWO_BLOCKS: Steps = &[
    (Blocks, Ok(0)),
    (Write(0, 1), DONE),
    (Write(1, 2), DONE),
    (Write(0, 3), DONE),
    (Sync, DONE),
    (Blocks, Ok(2)),
    (Read(0), Ok(3)),
    (Read(1), Ok(2)),
];

// Takes away what an earlier run left, and makes the folder and the file that are there before.
fn prepare(rt: &HostRuntime) -> io::Result<()> {
    let _ = fs::remove_file(rt, "file_tests_a");
    let _ = fs::remove_dir_all(rt, "file_tests");
    fs::create_dir(rt, "file_tests")?;
    fs::write(rt, "file_tests/f", [7u8; 5000].as_slice())
}

#[test]
fn files_of_the_system_do_as_they_are_to(rt: HostRuntime) -> Result<(), Fail> {
    prepare(&rt)?;
    for part in &PARTS {
        let about = part.about;
        assert_eq!(rt; played(&rt, part), Ok(None), "{about}");
    }
    fs::remove_dir_all(&rt, "file_tests")?;
    fs::remove_file(&rt, "file_tests_a")?;
    Ok(())
}

// Each way of opening, and those that make no file.
const EACH: &'static [How] = &[How::Made, How::Changed, How::Read];

const NOT_MADE: &'static [How] = &[How::Changed, How::Read];

// A folder, a missing folder, no path, what is no file, and a missing file.
const REFUSED: [(&'static str, &'static [How], OpenError); 6] = [
    ("file_tests_d", EACH, OpenError::IsADirectory),
    ("file_tests_d/", EACH, OpenError::IsADirectory),
    ("file_tests_d/none/a", EACH, OpenError::NotFound),
    ("", EACH, OpenError::NotFound),
    ("/dev/null", EACH, OpenError::Refused),
    ("file_tests_d/a", NOT_MADE, OpenError::NotFound),
];

// The first way of opening that comes to something else.
fn other_opening(rt: &HostRuntime, path: &str, ways: &[How], why: OpenError) -> Option<How> {
    for &how in ways {
        if opening(rt, path, how) != Err(why) {
            return Some(how);
        }
    }
    None
}

#[test]
fn what_is_no_file_is_refused(rt: HostRuntime) -> Result<(), Fail> {
    let _ = fs::remove_dir_all(&rt, "file_tests_d");
    fs::create_dir(&rt, "file_tests_d")?;
    for (path, ways, why) in REFUSED {
        assert_eq!(rt; other_opening(&rt, path, ways, why), None, "{path}");
    }
    fs::remove_dir_all(&rt, "file_tests_d")?;
    Ok(())
}

// The paths of a journal and of its copy.
const JOURNAL: &str = "file_tests_j/a-journal";

const COPY: &str = "file_tests_j/a-journal-part";

// Whether these are the paths of the journal of a file, and of its copy.
fn are_paths(alloc: Global, path: &str) -> bool {
    let Ok(journal) = journal_path(alloc, path) else {
        return false;
    };
    match copy_path(alloc, journal.as_str()) {
        Ok(copy) => journal.as_str() == JOURNAL && copy.as_str() == COPY,
        Err(_) => false,
    }
}

#[test]
fn a_journal_lies_beside_its_file(rt: HostRuntime) {
    assert!(rt; are_paths(rt.alloc(), "file_tests_j/a"));
}

// It may be removed while it is open, and another file at its path is not. Where there is none, nothing is
// left to do.
#[test]
fn the_journal_that_is_open_is_removed(rt: HostRuntime) -> Result<(), Fail> {
    let _ = fs::remove_dir_all(&rt, "file_tests_j");
    fs::create_dir(&rt, "file_tests_j")?;
    let (Ok(journal), Ok(other)) = (
        open_file(&rt, JOURNAL, true),
        open_file(&rt, "file_tests_j/b-journal", true),
    ) else {
        return Err(Fail::from("not opened"));
    };
    assert!(rt; remove_journal(&rt, JOURNAL, &other).is_err());
    assert!(rt; remove_journal(&rt, "file_tests_j/none/a-journal", &other).is_err());
    assert_eq!(rt; length_of(&rt, JOURNAL), Some(0));
    assert!(rt; remove_journal(&rt, JOURNAL, &journal).is_ok());
    assert_eq!(rt; length_of(&rt, JOURNAL), None);
    assert!(rt; remove_journal(&rt, JOURNAL, &journal).is_ok());
    fs::remove_dir_all(&rt, "file_tests_j")?;
    Ok(())
}

#[test]
fn a_copy_takes_the_place_of_the_journal_that_is_open(rt: HostRuntime) -> Result<(), Fail> {
    let _ = fs::remove_dir_all(&rt, "file_tests_p");
    fs::create_dir(&rt, "file_tests_p")?;
    fs::write(&rt, "file_tests_p/c-part", [7u8; 5].as_slice())?;
    let (Ok(journal), Ok(copy)) = (
        open_file(&rt, "file_tests_p/c", true),
        make_anew(&rt, "file_tests_p/c-part"),
    ) else {
        return Err(Fail::from("not opened"));
    };
    assert_eq!(rt; length_of(&rt, "file_tests_p/c-part"), Some(0));
    assert!(rt; replace_journal(&rt, "file_tests_p/c-part", "file_tests_p/c", &copy).is_err());
    assert!(rt; replace_journal(&rt, "file_tests_p/c-part", "file_tests_p/c", &journal).is_ok());
    assert_eq!(rt; length_of(&rt, "file_tests_p/c-part"), None);
    assert!(rt; remove_journal(&rt, "file_tests_p/c", &journal).is_err());
    assert!(rt; remove_journal(&rt, "file_tests_p/c", &copy).is_ok());
    fs::remove_dir_all(&rt, "file_tests_p")?;
    Ok(())
}

// What a lock is asked for in turn, and what that comes to, while others open its file.
fn lock_is_taken_and_shared(rt: &HostRuntime, path: &str) -> Result<bool, OpenError> {
    let (_device, lock) = open_shared(rt, path, true)?;
    let taken = lock.take_alone() && opening(rt, path, How::Read) == IN_USE;
    lock.share();
    let reader = open_reader(rt, path)?;
    let refused = !lock.take_alone() && opening(rt, path, How::Shared) == Ok(0);
    drop(reader);
    Ok(taken && refused && lock.take_alone())
}

#[test]
fn a_lock_is_taken_alone_where_nobody_shares_it(rt: HostRuntime) -> Result<(), Fail> {
    let _ = fs::remove_dir_all(&rt, "file_tests_l");
    fs::create_dir(&rt, "file_tests_l")?;
    assert_eq!(rt; lock_is_taken_and_shared(&rt, "file_tests_l/a"), Ok(true));
    fs::remove_dir_all(&rt, "file_tests_l")?;
    Ok(())
}

// The lock of a file of two names is held alone, by either name, and stays so.
fn lock_of_two_names(rt: &HostRuntime, path: &str, other: &str) -> Result<bool, OpenError> {
    let (_device, lock) = open_shared(rt, path, false)?;
    let alone = lock.take_alone() && opening(rt, other, How::Read) == IN_USE;
    lock.share();
    Ok(alone && opening(rt, other, How::Shared) == IN_USE)
}

#[test]
fn a_file_of_several_names_is_locked_alone(rt: HostRuntime) -> Result<(), Fail> {
    let _ = fs::remove_dir_all(&rt, "file_tests_n");
    fs::create_dir(&rt, "file_tests_n")?;
    fs::write(&rt, "file_tests_n/a", [7u8; 5].as_slice())?;
    fs::hard_link(&rt, "file_tests_n/a", "file_tests_n/b")?;
    assert_eq!(rt;
        lock_of_two_names(&rt, "file_tests_n/a", "file_tests_n/b"),
        Ok(true)
    );
    fs::remove_dir_all(&rt, "file_tests_n")?;
    Ok(())
}

// A third block is written.
const ONE_MORE: Steps = &[(Write(2, 3), DONE)];

// How many blocks the file beside another has, None where there is none, and again once it was made longer.
fn blocks_beside(rt: &HostRuntime, path: &str) -> Result<Option<(u32, u32)>, OpenError> {
    let Some(reader) = open_beside(rt, path)? else {
        return Ok(None);
    };
    let before = reader.blocks();
    let mut other = open_file(rt, path, false)?;
    if first_other(&mut other, ONE_MORE).is_some() {
        return Ok(None);
    }
    reader.sync()?;
    let again = reader.another_handle()?;
    let measured = reader.measured()?;
    Ok(Some((before, measured.blocks().min(again.blocks()))))
}

#[test]
fn a_file_beside_another_is_read_without_a_lock(rt: HostRuntime) -> Result<(), Fail> {
    let _ = fs::remove_dir_all(&rt, "file_tests_b");
    fs::create_dir(&rt, "file_tests_b")?;
    fs::write(&rt, "file_tests_b/a", [7u8; 5000].as_slice())?;
    assert_eq!(rt; blocks_beside(&rt, "file_tests_b/none"), Ok(None));
    assert_eq!(rt; blocks_beside(&rt, "file_tests_b/a"), Ok(Some((2, 3))));
    fs::remove_dir_all(&rt, "file_tests_b")?;
    Ok(())
}

// Takes steps on a new device over a file over a device.
fn over_a_device(alloc: Global, steps: Steps) -> Result<Other, DeviceError> {
    let mut device = FileDevice::over(BlocksFile::over(MemoryDevice::new(alloc)))?;
    Ok(first_other(&mut device, steps))
}

#[test]
fn a_device_over_a_file_over_a_device(rt: HostRuntime) {
    assert_eq!(rt; over_a_device(rt.alloc(), TWO_BLOCKS), Ok(None));
}

// Which calls of a file fail, and after how many bytes.
const CALLS: Calls = &[None, Some(0), Some(2000), None, Some(2000), None, Some(0)];

// A write that fails half way may leave a part of its block, and the part counts as a block.
const AFTER_FAILURES: Steps = &[
    (Write(0, 1), DONE),
    (Write(1, 2), FAILED),
    (Blocks, Ok(1)),
    (Write(1, 2), FAILED),
    (Blocks, Ok(2)),
    (Begin(1, 2000), Ok(2)),
    (Read(0), FAILED),
    (Read(0), Ok(1)),
    (Sync, FAILED),
    (Blocks, Ok(2)),
];

// Takes steps on a new device over a file whose calls fail so.
fn over_a_failing_file(calls: Calls, steps: Steps) -> Result<Other, DeviceError> {
    let mut device = FileDevice::over(FailingFile::new(calls))?;
    Ok(first_other(&mut device, steps))
}

#[test]
fn a_call_that_fails_is_answered(rt: HostRuntime) {
    assert_eq!(rt; over_a_failing_file(CALLS, AFTER_FAILURES), Ok(None));
}
