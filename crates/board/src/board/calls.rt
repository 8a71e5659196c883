// The calls that change one server: admit, leave and start.
ghost use Rattle.board.specs.Boards.{model};
ghost use Rattle.limits.specs.Ranges.{horizon};
ghost use Rattle.release.specs.Actions.{action};
ghost use Rattle.slots.specs.Steps.{admit_after, admit_refusal, arriving, judged, leave_after, leave_refusal, opened_by, start_after, start_answer};
ghost use Rattle.std.specs.Prelude.{◌≡◌, ◌≤◌, false, is_ok};

use super::Board;
use limits::{CAP_UNIT, Refusal, Task, check_cap, check_server};
use queues::Queue;
use release::{Opening, ReleaseRule, open_action};
use slots::{Slot, Work};

// What an action begins with: the stretch up to its first boundary, or its first period where it arrives on the boundary.
fn first_work(cap: u64, arrival: u64, task: Task, opening: Opening) -> Work
    requires { opening.boundary ≤ horizon }
    ensures answer { result ≡ opened_by «cap» (action arrival task.load task.limit task.period) opening }
{
    let period = task.period as u64;
    let (end, amount) = if arrival < opening.boundary {
        (opening.boundary, opening.amount)
    } else {
        (opening.boundary + period, task.limit)
    };
    Work {
        cap,
        end,
        unserved: task.load.min(amount) as u64,
        left: task.load as u64,
        limit: task.limit as u64,
        period,
    }
}

impl<R: ReleaseRule, Q: Queue, C: Queue> Board<R, Q, C> {
    // Makes an absent server rest, with its cap.
    pub fn admit(&mut self, server: u8, cap: u32) -> Result<(), Refusal>
        ensures answer { result ≡ judged (admit_refusal (model self.old) server «cap») tt }
        ensures after { model self.new ≡ admit_after (model self.old) server «cap» }
        ensures stays { is_ok result ≡ false → self.new ≡ self.old }
        ensures rule { self.new.rule ≡ self.old.rule }
    {
        check_server(server)?;
        check_cap(cap)?;
        if self.table.slot(server) != Slot::Absent {
            return Err(Refusal::AlreadyAdmitted);
        }
        if self.held + cap as u64 > CAP_UNIT as u64 {
            return Err(Refusal::CapsExceedProcessor);
        }
        self.held += cap as u64;
        self.table.put(server, Slot::Resting(cap as u64));
        Ok(())
    }

    // Removes a resting server and frees its cap.
    pub fn leave(&mut self, server: u8) -> Result<(), Refusal>
        ensures answer { result ≡ judged (leave_refusal (model self.old) server) tt }
        ensures after { model self.new ≡ leave_after (model self.old) server }
        ensures stays { is_ok result ≡ false → self.new ≡ self.old }
        ensures rule { self.new.rule ≡ self.old.rule }
    {
        check_server(server)?;
        let cap = self.table.resting_cap(server)?;
        self.held -= cap;
        self.table.put(server, Slot::Absent);
        Ok(())
    }

    // Gives a resting server an action that arrives now, and answers its forecast end.
    pub fn start(&mut self, server: u8, task: Task) -> Result<u64, Refusal>
        ensures answer { result ≡ start_answer (R.ReleaseRule.amount self.old.rule) (model self.old) server (arriving (model self.old) task.load task.limit task.period) }
        ensures after { model self.new ≡ start_after (R.ReleaseRule.amount self.old.rule) (model self.old) server (arriving (model self.old) task.load task.limit task.period) }
        ensures stays { is_ok result ≡ false → self.new ≡ self.old }
        ensures rule { self.new.rule ≡ self.old.rule }
    {
        check_server(server)?;
        task.check()?;
        let cap = self.table.resting_cap(server)?;
        if cap * (task.period as u64) < task.limit as u64 * CAP_UNIT as u64 {
            return Err(Refusal::LimitAboveCap);
        }
        let opening = open_action(&self.rule, self.clock, task)?;
        let work = first_work(cap, self.clock, task, opening);
        self.table.put(server, Slot::Working(work));
        Ok(opening.end)
    }
}
