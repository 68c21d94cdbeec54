//! The theorem of a run at a store in memory, where no premise is left.

ghost use Rattle.std.specs.Prelude.{IfSome};
ghost use Rattle.command_shell.specs.TextAnswers.{AnswersText};

use crate::session::{RunEnd, run};
use block_device::MemoryDevice;
use command_language::CountedReader;
use layer_store::{Version, create_store};
use std::alloc::Global;

// How many pages the cache of the store may hold.
const CACHE: u32 = 64;

/// The replies to the lines of a text, of a store in memory that begins without layers and is dropped in the
/// end.
///
/// They are the texts of the answers of a lawful session from the empty table, one answer to each command of
/// the text. It is None where the store or the replies find no memory; that it is so nowhere else, no clause
/// says.
pub fn answers_to(alloc: Global, text: &[u8]) -> Option<Vec<u8>>
    ensures { IfSome result (λ replies. AnswersText text.now replies.items) }
{
    let Ok(mut store) = create_store(alloc, MemoryDevice::new(alloc), CACHE, Version::Three) else {
        return None;
    };
    let mut input = CountedReader::over(text);
    let mut output = Vec::new(alloc);
    let end = run(&mut store, &mut input, &mut output);
    match end {
        RunEnd::Finished => Some(output),
        RunEnd::ReadFault => None,
        RunEnd::WriteFault => None,
    }
}
