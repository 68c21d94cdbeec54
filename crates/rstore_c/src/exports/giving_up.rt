//! The call that gives up what was changed.
ghost use Rattle.c_session.specs.RollingBack.{RollsBackBy};

use crate::handle::Handle;
use std::alloc::Global;

/// Gives up what was changed since the last closing, also of a store that has failed, and goes on.
#[unsafe(no_mangle)]
pub extern "C" fn rstore_c_roll_back(alloc: Global, handle: &mut Handle) -> u32
    ensures { RollsBackBy handle.old.value.session handle.new.value.session result }
{
    handle.held().session.roll_back(alloc)
}
