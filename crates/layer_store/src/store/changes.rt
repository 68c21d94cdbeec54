//! The commands that change the table.

ghost use Rattle.layer_store.specs.Commands.{Tells};

mod creating;
mod loading;
mod objects;

use live_layers::Unmade;
use plain_table::Refusal;

// What a change is answered. One that broke off half way is the end of the store.
pub(super) fn tell(failed: &mut bool, made: Result<(), Unmade>) -> Result<(), Refusal>
    ensures { Tells failed.old failed.new made result }
{
    match made {
        Ok(()) => Ok(()),
        Err(Unmade::Refused(refusal)) => Err(refusal),
        Err(Unmade::Broken(fault)) => {
            *failed = true;
            Err(Refusal::StoreFailed(fault.number()))
        }
    }
}
