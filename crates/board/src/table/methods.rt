// What a table does.
ghost use Rattle.bits.specs.Servers.{IsServer};
ghost use Rattle.board.specs.Fits.{AllFit, Fit, end_at, resting_cap_of};
ghost use Rattle.limits.specs.Ranges.{horizon};
ghost use Rattle.queues.specs.Dues.{First};
ghost use Rattle.slots.specs.Advances.{owing, until_end_of};
ghost use Rattle.slots.specs.Marks.{closing, served_for};
ghost use Rattle.slots.specs.Slots.{Fine, closed, end_of, pick};
ghost use Rattle.slots.specs.Steps.{number, sets, slot_of};
ghost use Rattle.slots.specs.declared.slot.Slot.TheVariants.{Absent};
ghost use Rattle.std.specs.List.{AllByRecursion};
ghost use Rattle.std.specs.Prelude.{◌≡◌, ◌-◌, ◌≤◌, map, None, Some, replicate, slice_set};

use super::Table;
use crate::entries::{clear, enter, strike};
use limits::Refusal;
use queues::{Entry, Queue};
use slots::{Closed, ServerSet, Sets, Slot};

impl<Q: Queue, C: Queue> Table<Q, C> {
    // A table without servers. Every entry is first taken out of both queues.
    #[inline]
    pub(crate) fn new(mut ready: Q, mut calendar: C) -> Table<Q, C>
        ensures slots { result.slots ≡ replicate 64 Absent }
    {
        clear(&mut ready);
        clear(&mut calendar);
        Table {
            slots: [Slot::Absent; 64],
            ready,
            calendar,
        }
    }

    // What the server is doing. The number comes checked, by check_server or since a queue has it: a type of checked numbers
    // would have to be made again of each entry.
    pub(crate) fn slot(&self, server: u8) -> Slot
        requires { IsServer server }
        ensures answer { result ≡ slot_of self.now.slots server }
    {
        self.slots[server as usize - 1]
    }

    // The cap of a server that rests.
    pub(crate) fn resting_cap(&self, server: u8) -> Result<u64, Refusal>
        requires { IsServer server }
        ensures answer { result ≡ resting_cap_of (slot_of self.now.slots server) }
    {
        match self.slot(server) {
            Slot::Absent => Err(Refusal::NotAdmitted),
            Slot::Resting(cap) => Ok(cap),
            Slot::Working(_) => Err(Refusal::ActionAtWork),
        }
    }

    // Gives a server without an action at work another slot.
    pub(crate) fn put(&mut self, server: u8, slot: Slot)
        requires server { IsServer server }
        requires idle { end_at (slot_of self.old.slots server) ≡ None }
        requires early { end_of slot ≤ horizon }
        ensures slots { self.new.slots ≡ slice_set self.old.slots (server - 1) slot }
    {
        self.slots[server as usize - 1] = slot;
        if let Slot::Working(work) = slot {
            enter(&mut self.calendar, server, work.end);
            if work.unserved > 0 {
                enter(&mut self.ready, server, work.end);
            }
        }
    }

    // The ticks from an instant to the first end of a stretch, `most` at most.
    pub(crate) fn until_end(&self, instant: u64, most: u64) -> u64
        requires { AllByRecursion (Fine instant) self.now.slots }
        ensures answer { result ≡ until_end_of instant self.now.slots most }
    {
        match self.calendar.least() {
            None => most,
            Some(e) => most.min(e.instant - instant),
        }
    }

    // What the server to serve has unserved, `most` at most.
    pub(crate) fn unserved(&self, most: u64) -> u64
        ensures answer { result ≡ owing self.now.slots (pick self.now.slots) most }
    {
        match self.ready.least() {
            None => most,
            Some(e) => most.min(self.slot(e.server).unserved()),
        }
    }

    // Serves the first server of the ready queue for some ticks.
    pub(crate) fn serve(&mut self, ticks: u64) -> Option<u8>
        ensures answer { result ≡ number (pick self.old.slots) }
        ensures slots { self.new.slots ≡ served_for ticks self.old.slots (pick self.old.slots) }
    {
        let e = self.ready.least()?;
        let slot = &mut self.slots[e.server as usize - 1];
        if slot.serve(ticks) == 0 {
            strike(&mut self.ready, e);
        }
        Some(e.server)
    }

    // Closes the stretch of the calendar's first entry at its end.
    fn close_first(&mut self, e: Entry) -> Closed
        requires first { First (C.due self.old.calendar) (Some e) }
        requires fit { Fit e.instant (slot_of self.old.slots e.server) }
        ensures answer { result ≡ closing e.instant (slot_of self.old.slots e.server) }
        ensures slots { self.new.slots ≡ slice_set self.old.slots (e.server - 1) (closed e.instant (slot_of self.old.slots e.server)) }
    {
        strike(&mut self.calendar, e);
        let slot = &mut self.slots[e.server as usize - 1];
        let closed = slot.close(e.instant);
        if let Closed::Next(end) = closed {
            enter(&mut self.calendar, e.server, end);
            enter(&mut self.ready, e.server, end);
        }
        closed
    }

    // Closes every stretch that ends at the instant.
    pub(crate) fn close(&mut self, instant: u64) -> Sets
        requires { AllFit instant self.old.slots }
        ensures answer { result ≡ sets instant self.old.slots }
        ensures slots { self.new.slots ≡ map (closed instant) self.old.slots }
    {
        let mut released = ServerSet::EMPTY;
        let mut ended = ServerSet::EMPTY;
        while let Some(e) = self.calendar.least() {
            if e.instant > instant {
                break;
            }
            match self.close_first(e) {
                Closed::Rests => ended.insert(e.server),
                Closed::Next(_end) => released.insert(e.server),
                Closed::Nothing | Closed::Late => unreachable(),
            }
        }
        Sets {
            released,
            ended,
            late: ServerSet::EMPTY,
        }
    }
}
