// A row is a queue.
ghost use Rattle.queues.specs.Dues.{Empty};
ghost use Rattle.queues.specs.Makes.{row_due, row_within};

use super::Row;
use crate::checks::check_put;
use crate::entry::Entry;
use crate::places::insert;
use crate::queue::Queue;
use arrayvec::ArrayVec;
use bits::ServerSet;
use limits::Refusal;

impl Row {
    // A row without entries.
    pub fn new() -> Row
        ensures answer { Empty (row_due result) }
    {
        Row {
            entries: ArrayVec::new(),
            held: ServerSet::EMPTY,
        }
    }
}

impl Queue for Row {
    ghost due = { row_due };

    ghost within = { row_within };

    fn put(&mut self, server: u8, instant: u64) -> Result<(), Refusal> {
        check_put(server, instant, self.holds(server))?;
        let _place = insert(&mut self.entries, Entry { instant, server });
        self.held.insert(server);
        Ok(())
    }

    fn least(&self) -> Option<Entry> {
        self.entries.last().copied()
    }

    // The same lines as a heap queue's: a trait of what the two keep their entries in would take laws of its own.
    fn take(&mut self) -> Option<Entry> {
        let first = self.entries.pop()?;
        self.held.remove(first.server);
        Some(first)
    }

    fn holds(&self, server: u8) -> bool {
        self.held.contains(server)
    }
}
