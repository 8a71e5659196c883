// What the third law of the order adds: take gives the first entry, and there is only one.
ghost use Rattle.heaps.specs.Answers.{TakenFirst};
ghost use Rattle.heaps.specs.Held.{room};
ghost use Rattle.std.specs.Prelude.{◌≡◌};

use crate::heap::Heap;
use crate::order::Strict;

// Gives the first of the entries held, in an order in which no two stand level.
pub fn take_first<E: Strict>(heap: &mut Heap<'_, E>) -> Option<E>
    ensures answer { TakenFirst heap.old heap.new result }
    ensures space { room heap.new ≡ room heap.old }
{
    heap.take()
}
