// How much a heap holds, and can hold.
ghost use Rattle.heaps.specs.Held.{held, room};
ghost use Rattle.std.specs.Prelude.{◌≡◌, length, ◌==◌};

use super::Heap;
use crate::order::Ordered;

impl<'a, E: Ordered> Heap<'a, E> {
    // How many entries it holds.
    pub fn len(&self) -> usize
        ensures answer { result ≡ length (held self.now) }
    {
        self.len
    }

    pub fn is_empty(&self) -> bool
        ensures answer { result ≡ (length (held self.now) == 0) }
    {
        self.len() == 0
    }

    // How many entries there is room for.
    pub fn capacity(&self) -> usize
        ensures answer { result ≡ room self.now }
    {
        self.places.len()
    }
}
