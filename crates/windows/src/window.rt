// Marks over a queue.
ghost use Rattle.queues.specs.Dues.{Within};
ghost use Rattle.windows.specs.Both.{Apart};
ghost use Rattle.windows.specs.Marked.{Sane, near};

use crate::marks::Marks;
use queues::Queue;

mod methods;

// An entry is marked or below, and never both.
#[derive(Drop)]
pub struct Window<Q: Queue> {
    marks: Marks,
    below: Q,
    ghost within: { Within (near marks) },
    ghost sane: { Sane marks },
    ghost apart: { Apart (near marks) (Q.due below) },
}
