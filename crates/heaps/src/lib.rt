// A binary heap over lent memory, for every kind of entry that has an order.
#![tactic(auto)]

mod first;
mod heap;
mod order;
mod sifts;

pub use first::take_first;
pub use heap::Heap;
pub use order::{Ordered, Strict};

#[cfg(test)]
mod tests;
