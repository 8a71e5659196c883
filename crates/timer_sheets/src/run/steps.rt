// What a run does: its making, and its lines.
ghost use Rattle.scripts.specs.Agendas.{coming};
ghost use Rattle.share.specs.Share.{Kept};
ghost use Rattle.share.specs.Traces.{nothing};
ghost use Rattle.timer_sheets.specs.Calls.{shown_after};
ghost use Rattle.timer_sheets.specs.Runs.{Given, to_come};
ghost use Rattle.timer_sheets.specs.Sheets.{sheet_from};
ghost use Rattle.timer_sheets.specs.Timely.{Timely};
ghost use Rattle.slots.specs.Steps.{fresh};
ghost use Rattle.std.specs.Prelude.{◌≡◌};

use crate::line::SheetLine;
use crate::play::{call, run_on};
use crate::run::Run;
use board::Board;
use plans::Plan;
use queues::Queue;
use release::ReleaseRule;
use scripts::Agenda;

impl<'p, 'a, 'l, 'm, R: ReleaseRule, Q: Queue, C: Queue> Run<'p, 'a, 'l, 'm, R, Q, C> {
    // A run of the agenda's lines on a new board. The calls that its lines show, and their answers, keep the share law.
    // An agenda takes lines past the horizon too, so that it has none is asked here.
    pub fn new(
        plan: &'p Plan,
        agenda: &'a mut Agenda<'l, 'm>,
        rule: R,
        ready: Q,
        calendar: C,
    ) -> Run<'p, 'a, 'l, 'm, R, Q, C>
        requires early { Timely (coming agenda.old) }
        ensures answer { to_come result ≡ sheet_from (R.ReleaseRule.amount rule) plan.now fresh (coming agenda.old) }
        ensures law { Kept (R.ReleaseRule.amount rule) (shown_after plan.now nothing (to_come result)) }
    {
        let awaited = agenda.next();
        Run {
            plan,
            agenda,
            awaited,
            board: Board::new(rule, ready, calendar),
        }
    }

    // The next line of the sheet; none once all are given.
    pub fn next_line(&mut self) -> Option<SheetLine>
        ensures answer { Given result (to_come self.old) (to_come self.new) }
    {
        while let Some(line) = self.awaited {
            if self.board.clock() < line.instant {
                return Some(run_on(&mut self.board, line.instant));
            }
            self.awaited = self.agenda.next();
            if let Some(shown) = call(&mut self.board, self.plan, line) {
                return Some(shown);
            }
        }
        None
    }
}
