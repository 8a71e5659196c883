// What a heap does. That a call leaves the room as it was (`space`) stands in each contract: a type tells nothing of before
// and after.
ghost use Rattle.heaps.specs.Held.{held, room};
ghost use Rattle.heaps.specs.Answers.{Least, Put, Taken};
ghost use Rattle.std.specs.Prelude.{◌≡◌, [], length};

use super::Heap;
use crate::order::Ordered;
use crate::sifts::{move_first, sift_up};
use limits::Refusal;

impl<'a, E: Ordered> Heap<'a, E> {
    // A heap without entries over the memory, whatever it holds.
    pub fn new(places: &'a mut [E]) -> Heap<'a, E>
        ensures answer { held result ≡ [] }
        ensures space { room result ≡ length places.old }
    {
        Heap { places, len: 0 }
    }

    // Adds an entry. Refuses exactly when every place is taken, and then changes nothing.
    pub fn put(&mut self, x: E) -> Result<(), Refusal>
        ensures answer { Put x self.old self.new result }
        ensures space { room self.new ≡ room self.old }
    {
        let at = self.len;
        if at == self.places.len() {
            return Err(Refusal::MemoryFull);
        }
        self.places[at] = x;
        sift_up(&mut self.places[..=at]);
        self.len = at + 1;
        Ok(())
    }

    // Gives an entry that is at or before every other, and holds that one no more.
    pub fn take(&mut self) -> Option<E>
        ensures answer { Taken self.old self.new result }
        ensures space { room self.new ≡ room self.old }
    {
        let last = self.len.checked_sub(1)?;
        self.len = last;
        Some(move_first(&mut self.places[..=last]))
    }

    // The entry that `take` would give.
    pub fn least(&self) -> Option<E>
        ensures answer { Least self.now result }
    {
        self.places[..self.len].first().copied()
    }

    // Lets every entry go.
    pub fn clear(&mut self)
        ensures after { held self.new ≡ [] }
        ensures space { room self.new ≡ room self.old }
    {
        self.len = 0;
    }
}
