// A heap in lent memory is a queue.
ghost use Rattle.queues.specs.Makes.{Made, heap_due, heap_within};

use super::{HeapQueue, Returned};
use crate::checks::check_put;
use crate::entry::Entry;
use crate::queue::Queue;
use bits::ServerSet;
use heaps::Heap;
use limits::{Refusal, SERVERS};

impl<'a> HeapQueue<'a> {
    // A queue without entries over the memory, whatever it holds. Refuses memory of fewer than 64 places, and gives it back.
    pub fn new(memory: &'a mut [Entry]) -> Result<HeapQueue<'a>, Returned<'a>>
        ensures answer { Made memory.old result }
    {
        if memory.len() < SERVERS as usize {
            let refusal = Refusal::TooLittleMemory;
            return Err(Returned { refusal, memory });
        }
        Ok(HeapQueue {
            heap: Heap::new(memory),
            held: ServerSet::EMPTY,
        })
    }
}

impl<'a> Queue for HeapQueue<'a> {
    ghost due = { heap_due };

    ghost within = { heap_within };

    fn put(&mut self, server: u8, instant: u64) -> Result<(), Refusal> {
        check_put(server, instant, self.holds(server))?;
        let _ = self.heap.put(Entry { instant, server });
        self.held.insert(server);
        Ok(())
    }

    fn least(&self) -> Option<Entry> {
        self.heap.least()
    }

    fn take(&mut self) -> Option<Entry> {
        let first = self.heap.take()?;
        self.held.remove(first.server);
        Some(first)
    }

    fn holds(&self, server: u8) -> bool {
        self.held.contains(server)
    }
}
