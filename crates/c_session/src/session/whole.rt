//! The calls of the whole store.
ghost use Rattle.std.specs.Prelude.{◌≡◌, [], None};
ghost use Rattle.plain_table.specs.Answers.{done_answer, layers_answer};
ghost use Rattle.plain_table.specs.Commands.Command.{Check, Layers};
ghost use Rattle.c_session.specs.Calls.{AsksBy, ClosesBy, CommitsBy, HasListed, TellsBy};
ghost use Rattle.c_session.specs.Keeping.{as_it_is};
ghost use Rattle.c_session.specs.Outlining.{nodes_of};

use crate::session::{CLOSED, Session};
use block_device::BlockDevice;
use c_rows::{Layer, number_of, tell, write_layers};
use live_layers::LayerOutline;
use std::alloc::Allocator;

impl<D: BlockDevice, A: Allocator + Copy> Session<D, A> {
    /// Keeps all changes on the device, and goes on.
    pub fn commit(&mut self) -> u32
        ensures { CommitsBy self.old self.new result }
    {
        match &mut self.store {
            Some(store) => number_of(store.reopen(), &mut self.detail),
            None => CLOSED,
        }
    }

    /// Checks all pages.
    pub fn check(&mut self) -> u32
        ensures { AsksBy self.old self.new Check done_answer as_it_is result }
    {
        match &mut self.store {
            Some(store) => number_of(store.check(), &mut self.detail),
            None => CLOSED,
        }
    }

    /// Writes the layers, ascending by name, into an array, as many as it has room for. How many there are is
    /// told.
    pub fn layers(&mut self, out: &mut [Layer], count: &mut usize) -> u32
        ensures { TellsBy self.old self.new Layers layers_answer
            (HasListed out.old out.new count.old count.new) result }
    {
        let Some(store) = &mut self.store else {
            return CLOSED;
        };
        match store.layers() {
            Ok(layers) => {
                *count = layers.len();
                let _ = write_layers(layers.as_slice(), out);
                0
            }
            Err(refusal) => tell(refusal, &mut self.detail),
        }
    }

    /// Closes the store, frees the rows that were kept, and hands the device back, also that of a store that
    /// could not be rolled back. Nothing is kept of a store that is refused.
    pub fn close(&mut self, alloc: A) -> (u32, Option<D>)
        ensures closes { ClosesBy self.old self.new result }
        ensures closed { self.new.store ≡ None }
        ensures boxes { self.new.boxes.items ≡ [] }
        ensures near { self.new.near.items ≡ [] }
        ensures pairs { self.new.pairs.items ≡ [] }
        ensures outline { nodes_of self.new.outline ≡ 0 }
    {
        self.boxes = Vec::new(alloc);
        self.near = Vec::new(alloc);
        self.pairs = Vec::new(alloc);
        self.outline = LayerOutline::Two(Vec::new(alloc));
        let Some(store) = self.store.take() else {
            return (CLOSED, self.left.take());
        };
        match store.close() {
            Ok(device) => (0, Some(device)),
            Err((refusal, device)) => (tell(refusal, &mut self.detail), Some(device)),
        }
    }
}
