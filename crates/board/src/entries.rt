// What a table does with the entries of its queues.
ghost use Rattle.bits.specs.Servers.{IsServer};
ghost use Rattle.limits.specs.Ranges.{horizon};
ghost use Rattle.queues.specs.Dues.{Empty, First, Put, Taken};
ghost use Rattle.std.specs.Prelude.{◌≡◌, ◌≤◌, Some, None};

use queues::{Entry, Queue};

// Takes every entry out.
#[inline]
pub(crate) fn clear<Q: Queue>(queue: &mut Q)
    ensures after { Empty (Q.due queue.new) }
{
    // Of a new queue the compiler sees here that it is empty, and no loop is left.
    if queue.least().is_none() {
        return;
    }
    while let Some(_e) = queue.take() {}
}

// Puts an entry that the queue has to take.
pub(crate) fn enter<Q: Queue>(queue: &mut Q, server: u8, instant: u64)
    requires server { IsServer server }
    requires instant { instant ≤ horizon }
    requires absent { Q.due queue.old server ≡ None }
    ensures after { Put (Q.due queue.old) (Q.due queue.new) server instant }
{
    queue.put(server, instant).unwrap()
}

// Takes the first entry, which is known.
pub(crate) fn strike<Q: Queue>(queue: &mut Q, first: Entry)
    requires first { First (Q.due queue.old) (Some first) }
    ensures after { Taken (Q.due queue.old) (Q.due queue.new) (Some first) }
{
    let _gone = queue.take();
}
