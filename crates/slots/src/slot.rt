// The slot of one server.
//
//              admit              start
//     Absent <-------> Resting ----------> Working ---+
//              leave      ^                   |  ^    | a stretch ends with load left:
//                         +-------------------+  +----+ the next begins
//                  a stretch ends with no load left
ghost use Rattle.slots.specs.Marks.{Ample, closing, owed, served_by};
ghost use Rattle.slots.specs.Slots.{closed};
ghost use Rattle.std.specs.Prelude.{◌≡◌};

// An action at work: the cap of its server, the end of its present stretch and what is unserved of that stretch, and
// the load left. All in ticks or instants, but for the cap.
#[derive(Clone, Copy, PartialEq, Eq, Debug)]
pub struct Work {
    pub cap: u64,
    pub end: u64,
    pub unserved: u64,
    pub left: u64,
    pub limit: u64,
    pub period: u64,
}

// A server is absent, rests with its cap, or has one action at work.
#[derive(Clone, Copy, PartialEq, Eq, Debug)]
pub enum Slot {
    Absent,
    Resting(u64),
    Working(Work),
}

// What an instant makes of a slot: nothing, the server rests, its next stretch begins and ends there, or it is late.
#[derive(Clone, Copy, PartialEq, Eq, Debug)]
pub enum Closed {
    Nothing,
    Rests,
    Next(u64),
    Late,
}

impl Slot {
    // Serves the action for some ticks, as far as there are any, and answers what is then unserved of its stretch.
    pub fn serve(&mut self, ticks: u64) -> u64
        ensures after { self.new ≡ served_by ticks self.old }
        ensures answer { result ≡ owed (served_by ticks self.old) }
    {
        if let Slot::Working(work) = self {
            work.unserved = work.unserved.saturating_sub(ticks);
            work.left = work.left.saturating_sub(ticks);
        }
        self.unserved()
    }

    // What is unserved of the present stretch.
    pub fn unserved(&self) -> u64
        ensures answer { result ≡ owed self.now }
    {
        match self {
            Slot::Absent | Slot::Resting(_) => 0,
            Slot::Working(work) => work.unserved,
        }
    }

    // Closes the stretch if it ends at the instant. Without load left the server rests; otherwise its next stretch begins.
    // A stretch with part of its amount unserved is late, and that part stays in the load left. The next end has to fit: no
    // field of `Work` can say so, since the work that follows need not keep it.
    pub fn close(&mut self, instant: u64) -> Closed
        requires { Ample self.old }
        ensures after { self.new ≡ closed instant self.old }
        ensures answer { result ≡ closing instant self.old }
    {
        let Slot::Working(work) = *self else {
            return Closed::Nothing;
        };
        if work.end != instant {
            return Closed::Nothing;
        }
        let end = work.end + work.period;
        let rests = work.left == 0;
        *self = if rests {
            Slot::Resting(work.cap)
        } else {
            Slot::Working(Work {
                end,
                unserved: work.limit.min(work.left),
                ..work
            })
        };
        if work.unserved > 0 {
            Closed::Late
        } else if rests {
            Closed::Rests
        } else {
            Closed::Next(end)
        }
    }
}
