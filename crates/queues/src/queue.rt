// The trait of every queue.
ghost use Rattle.std.specs.Prelude.{◌≡◌, ℕ, true, false, is_some, is_ok, Option};
ghost use Rattle.queues.specs.Checks.{put_check};
ghost use Rattle.queues.specs.Dues.{First, Put, Taken, Within};
ghost use Rattle.std.specs.Result.{result_err};

use crate::entry::Entry;
use limits::Refusal;

// Entries in time order, at most one for each server.
pub trait Queue {
    // The instant of each server's entry.
    ghost due: { Self → ℕ → Option ℕ };

    // Only servers have entries, and none past the horizon.
    ghost within: { (q : Self) → Within (due q) };

    // Adds the server's entry. The first check that fails gives the refusal, and then nothing changes. The two numbers come
    // one by one: they may be anything, and an entry made of them would first be taken apart by the checks.
    fn put(&mut self, server: u8, instant: u64) -> Result<(), Refusal>
        ensures answer { result_err result ≡ put_check (due self.old) server instant }
        ensures after { is_ok result ≡ true → Put (due self.old) (due self.new) server instant }
        ensures stays { is_ok result ≡ false → self.new ≡ self.old };

    // The first entry, by instant and then by server.
    fn least(&self) -> Option<Entry>
        ensures answer { First (due self.now) result };

    // Gives the first entry, and holds it no more.
    fn take(&mut self) -> Option<Entry>
        ensures answer { First (due self.old) result }
        ensures after { Taken (due self.old) (due self.new) result }
        ensures stays { is_some result ≡ false → self.new ≡ self.old };

    // Whether the server has an entry.
    fn holds(&self, server: u8) -> bool
        ensures answer { result ≡ is_some (due self.now server) };
}
