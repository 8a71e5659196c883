// A window is a queue.
ghost use Rattle.std.specs.Prelude.{◌≡◌, ℕ, true, false, is_ok};
ghost use Rattle.queues.specs.Checks.{put_check};
ghost use Rattle.queues.specs.Dues.{Put};
ghost use Rattle.std.specs.Result.{result_err};
ghost use Rattle.windows.specs.Both.{marks_lead_of};
ghost use Rattle.windows.specs.Offers.{Placing};
ghost use Rattle.windows.specs.Windows.{over, window_within};

use super::Window;
use crate::marks::Marks;
use limits::Refusal;
use queues::{Entry, Queue, check_put};

impl<Q: Queue> Window<Q> {
    // A window without marks over the queue.
    pub fn new(below: Q) -> Window<Q>
        ensures answer { (k : ℕ) → over result k ≡ Q.Queue.due below k }
    {
        Window {
            marks: Marks::new(),
            below,
        }
    }
}

// Whether the first mark is there, and not after the first entry below.
fn marks_lead(near: Option<Entry>, next: Option<Entry>) -> bool
    ensures answer { result ≡ marks_lead_of near next }
{
    match (near, next) {
        (None, _) => false,
        (Some(_), None) => true,
        (Some(e), Some(d)) => e <= d,
    }
}

impl<Q: Queue> Queue for Window<Q> {
    ghost due = { over };

    ghost within = { window_within };

    // Also says where an accepted entry goes.
    fn put(&mut self, server: u8, instant: u64) -> Result<(), Refusal>
        ensures answer { result_err result ≡ put_check (over self.old) server instant }
        ensures after { is_ok result ≡ true → Put (over self.old) (over self.new) server instant }
        ensures place { is_ok result ≡ true → Placing self.old.marks self.new.marks server instant }
        ensures stays { is_ok result ≡ false → self.new ≡ self.old }
    {
        check_put(server, instant, self.holds(server))?;
        if self.marks.offer(Entry { instant, server }) {
            return Ok(());
        }
        self.below.put(server, instant)
    }

    fn least(&self) -> Option<Entry> {
        let near = self.marks.least();
        let next = self.below.least();
        if marks_lead(near, next) { near } else { next }
    }

    fn take(&mut self) -> Option<Entry> {
        let near = self.marks.least();
        let next = self.below.least();
        if marks_lead(near, next) {
            self.marks.take()
        } else {
            self.below.take()
        }
    }

    fn holds(&self, server: u8) -> bool {
        self.marks.holds(server) || self.below.holds(server)
    }
}
