// The lines of a script that are still to come, in time order.
ghost use Rattle.std.specs.Prelude.{◌<◌, length};
ghost use Rattle.std.specs.List.{All};
ghost use Rattle.heaps.specs.Held.{held};

use crate::due::Due;
use crate::line::Line;
use heaps::Heap;

mod methods;

// A heap of when lines are due, over lent memory; each due is one of a line.
#[derive(Drop)]
pub struct Agenda<'l, 'm> {
    lines: &'l [Line],
    heap: Heap<'m, Due>,
    ghost placed: { All (λ due. due.place < length lines.now) (held heap) },
}
