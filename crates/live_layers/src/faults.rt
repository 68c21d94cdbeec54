//! The refusals that faults of a file are, and why a change that broke off was not made.

ghost use Rattle.std.specs.Prelude.{◌≡◌};
ghost use Rattle.live_layers.specs.Faults as faults;

use crate::broken::Broken;
use crate::unmade::Unmade;
use page_file::Fault;
use plain_table::Refusal;

/// The refusal that this fault of a file is: the one of the same name.
pub fn as_refusal(fault: Fault) -> Refusal
    ensures { result ≡ faults.as_refusal fault }
{
    match fault {
        Fault::Memory => Refusal::Memory,
        Fault::Device => Refusal::Device,
        Fault::Damaged(page) => Refusal::Damaged(page),
        Fault::NotClosed => Refusal::NotClosed,
        Fault::NotAStore => Refusal::NotAStore,
        Fault::WrongVersion => Refusal::WrongVersion,
        Fault::NoPages => Refusal::NoPages,
    }
}

// Why a change that broke off was not made.
fn unmade_by(broken: Broken) -> Unmade
    ensures { result ≡ faults.unmade_by broken }
{
    if broken.touched {
        Unmade::Broken(broken.cause)
    } else {
        Unmade::Refused(as_refusal(broken.cause))
    }
}

/// A change of the layers that its pages were changed for, or not.
pub fn change_of(made: Result<(), Broken>) -> Result<(), Unmade>
    ensures { result ≡ faults.change_of made }
{
    match made {
        Ok(()) => Ok(()),
        Err(broken) => Err(unmade_by(broken)),
    }
}
