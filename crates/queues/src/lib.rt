// Queues of entries, at most one for each server: the trait, and two makes of it.
#![tactic(auto)]

mod checks;
mod entry;
mod heap_queue;
mod places;
mod queue;
mod row;

pub use checks::check_put;
pub use entry::Entry;
pub use heap_queue::{HeapQueue, Returned};
pub use queue::Queue;
pub use row::Row;
