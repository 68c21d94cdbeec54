//! A stop at each call of a session, and at each call of the recovery after it.
ghost use Rattle.std.specs.Prelude.{◌<◌, ◌-◌, ◌^◌};

use crate::session::{ALL, begins, committed, stopped};
use block_device::{FuseMode, Left};
use device_pair::{FusePair, MemoryPair};
use journaled_device::{JournaledDevice, Nobody, OpenFault};
use std::alloc::Global;

const KINDS: [Left; 3] = [Left::Written, Left::Synced, Left::Filled(0xEE)];

// Opens what is left and brings it home, with so many calls that pass. Says whether it was refused as no journal,
// and whether all of it was done.
fn opened(alloc: Global, left: MemoryPair, passes: u64) -> (MemoryPair, bool, bool)
    requires { passes < 2 ^ 64 - 1 }
{
    let pair = FusePair::new(left, passes, FuseMode::Onward);
    match JournaledDevice::open(pair, alloc, Nobody, false) {
        Ok(device) => {
            let mut device = device;
            let home = device.bring_home().is_ok();
            (device.into_parts().0.into_inner(), false, home)
        }
        Err((OpenFault::Malformed, pair)) => (pair.into_inner(), true, false),
        Err((OpenFault::Device(_), pair)) => (pair.into_inner(), false, false),
    }
}

// Whether opening gives what was committed last, or by the commit in progress.
pub fn gives_a_commit(alloc: Global, left: MemoryPair, begun: u32, ended: u32) -> bool {
    match JournaledDevice::open(left, alloc, Nobody, false) {
        Ok(device) => {
            let mut device = device;
            begins(&mut device, committed(ended)) || begins(&mut device, committed(begun))
        }
        Err(_) => false,
    }
}

#[test]
fn a_session_gives_what_was_written(rt: HostRuntime) {
    let alloc = rt.alloc();
    let (pair, begun, ended, done) = stopped(alloc, ALL);
    assert!(rt; done);
    assert_eq!(rt; begun, 3);
    assert_eq!(rt; ended, 3);
    assert!(rt; gives_a_commit(alloc, pair, 3, 3));
}

// Whether a session that is stopped after so many calls leaves a commit, and whether it was at its end. The
// recovery is stopped too: at each of its calls, or after the last one alone.
fn leaves_a_commit(alloc: Global, passes: u64, one: Left, other: Left, each: bool) -> (bool, bool)
    requires { passes < 2 ^ 64 - 1 }
{
    let first = if each { 0 } else { 59 };
    for again in first..60u64 {
        let (pair, begun, ended, done) = stopped(alloc, passes);
        let (left, malformed, whole) = opened(alloc, pair.after_stop(one, other), again);
        if malformed {
            return (false, done);
        }
        if !gives_a_commit(alloc, left.after_stop(other, one), begun, ended) {
            return (false, done);
        }
        if whole {
            return (true, done);
        }
    }
    (false, false)
}

#[test]
fn a_stop_at_any_call_leaves_a_commit(rt: HostRuntime) {
    let alloc = rt.alloc();
    let mut all = false;
    for passes in 0..400u64 {
        for one in KINDS {
            for other in KINDS {
                let (fits, done) = leaves_a_commit(alloc, passes, one, other, one == other);
                assert!(rt; fits, "a stop after {passes} calls");
                all = done;
            }
        }
        if all {
            break;
        }
    }
    assert!(rt; all);
}
