// The entries of 64 instants as sets of servers.
ghost use Rattle.std.specs.Prelude.{◌≡◌, ℕ, ◌+◌, ◌<◌, ◌≤◌, min, true, false, ◌≢◌, is_some, IfSome, Some, None};
ghost use Rattle.bits.specs.Words.{bit};
ghost use Rattle.queues.specs.Dues.{Empty, First, Put, Taken};
ghost use Rattle.queues.specs.Entries.{Proper};
ghost use Rattle.windows.specs.Marked.{Sane, near};
ghost use Rattle.windows.specs.Offers.{Offered};

use bits::{ServerSet, lowest, with_bit, without_bit};
use queues::Entry;
use std::marker::Model;

// How many instants have a set.
const INSTANTS: u64 = 64;

// A set of servers for each of the instants from the base on. The summary has a bit for each set that has a server,
// and `held` has the servers of all sets.
#[derive(Drop)]
pub(crate) struct Marks {
    base: u64,
    sets: [ServerSet; 64],
    summary: u64,
    held: ServerSet,
}

// What ties the parts is a model's: with ghost fields, the check takes no board with a window over lent memory.
impl Model for Marks {
    ghost use Rattle.windows.specs.Marked.{Fine, Parts};

    ghost Value = { Parts };

    ghost view = { λ m. record { base = m.base; sets = m.sets; summary = m.summary; held = m.held } };

    ghost invariant = { λ m. Fine m.base m.sets m.summary m.held };
}

// The summary once the set at the offset, which had a server, has the word.
fn resummed(summary: u64, offset: u32, word: u64) -> u64
    requires within { offset < 64 }
    requires was { bit summary offset ≡ 1 }
    ensures here { bit result offset ≡ min 1 word }
    ensures others { (j : ℕ) → j ≢ offset → bit result j ≡ bit summary j }
{
    if word == 0 {
        without_bit(summary, offset)
    } else {
        summary
    }
}

impl Marks {
    // No marks.
    pub(crate) fn new() -> Marks
        ensures answer { Empty (near result) }
        ensures keeps { Sane result }
    {
        Marks {
            base: 0,
            sets: [ServerSet::EMPTY; 64],
            summary: 0,
            held: ServerSet::EMPTY,
        }
    }

    // Marks the entry, whose instant has a set.
    fn mark(&mut self, entry: Entry)
        requires proper { Proper entry }
        requires from { self.old.base ≤ entry.instant }
        requires to { entry.instant < self.old.base + 64 }
        requires absent { near self.old entry.server ≡ None }
        ensures after { Put (near self.old) (near self.new) entry.server entry.instant }
        ensures base { self.new.base ≡ self.old.base }
        ensures keeps { Sane self.new }
    {
        let offset = (entry.instant - self.base) as usize;
        self.sets[offset].insert(entry.server);
        self.summary = with_bit(self.summary, offset as u32);
        self.held.insert(entry.server);
    }

    // Takes the mark of the entry away.
    fn clear(&mut self, entry: Entry)
        requires from { self.old.base ≤ entry.instant }
        requires to { entry.instant < self.old.base + 64 }
        requires stands { near self.old entry.server ≡ Some entry.instant }
        ensures after { Taken (near self.old) (near self.new) (Some entry) }
        ensures keeps { Sane self.new }
    {
        let offset = (entry.instant - self.base) as usize;
        self.sets[offset].remove(entry.server);
        self.summary = resummed(self.summary, offset as u32, self.sets[offset].word);
        self.held.remove(entry.server);
    }

    // Marks the entry if its instant has a set. While nothing is marked, the sets begin with the instant.
    pub(crate) fn offer(&mut self, entry: Entry) -> bool
        requires proper { Proper entry }
        requires absent { near self.old entry.server ≡ None }
        ensures answer { Offered self.old self.new entry.instant result }
        ensures after { result ≡ true → Put (near self.old) (near self.new) entry.server entry.instant }
        ensures stays { result ≡ false → self.new ≡ self.old }
        ensures keeps { Sane self.new }
    {
        if self.summary == 0 {
            self.base = entry.instant;
            self.mark(entry);
            return true;
        }
        if entry.instant < self.base || entry.instant - self.base >= INSTANTS {
            return false;
        }
        self.mark(entry);
        true
    }

    // The first entry that is marked: the lowest server of the first set that has one.
    pub(crate) fn least(&self) -> Option<Entry>
        ensures answer { First (near self.now) result }
        ensures inside { IfSome result (λ e. (self.now.base ≤ e.instant) × (e.instant < self.now.base + 64)) }
        ensures keeps { Sane self.now }
    {
        let offset = lowest(self.summary)?;
        let server = self.sets[offset as usize].first()?;
        Some(Entry {
            instant: self.base + offset as u64,
            server,
        })
    }

    // Gives the first entry that is marked, and takes its mark away.
    pub(crate) fn take(&mut self) -> Option<Entry>
        ensures answer { First (near self.old) result }
        ensures after { Taken (near self.old) (near self.new) result }
        ensures stays { is_some result ≡ false → self.new ≡ self.old }
        ensures keeps { Sane self.new }
    {
        let first = self.least()?;
        self.clear(first);
        Some(first)
    }

    // Whether the server is marked.
    pub(crate) fn holds(&self, server: u8) -> bool
        ensures answer { result ≡ is_some (near self.now server) }
    {
        self.held.contains(server)
    }
}
