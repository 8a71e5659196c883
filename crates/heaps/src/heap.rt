// The heap and what it holds.
ghost use Rattle.heaps.specs.Heaps.{Heaped};
ghost use Rattle.std.specs.Prelude.{◌≤◌, length};

use crate::order::Ordered;

mod methods;
mod sizes;

// The first `len` of the lent places hold the entries: the parent of each is at or before it. The length stands beside
// the memory since a host lends it, of any length, and nothing is allocated.
#[derive(Drop)]
pub struct Heap<'a, E: Ordered> {
    places: &'a mut [E],
    len: usize,
    ghost within: { len ≤ length places.now },
    ghost heaped: { Heaped E.at_or_before places.now len },
}
