// What a run asks of its board. Board and plan stay two parameters: in a struct of both each method would owe one clause
// more, that the plan stays.
ghost use Rattle.std.specs.Prelude.{◌≡◌, ◌<◌, ◌≤◌};
ghost use Rattle.board.specs.Boards.{model};
ghost use Rattle.limits.specs.Ranges.{horizon};
ghost use Rattle.plans.specs.Reads.{action_of, server_of};
ghost use Rattle.timer_sheets.specs.Sheets.{from_plan, in_plan, left_by, next_run, shown, stride};
ghost use Rattle.slots.specs.Advances.{turns};
ghost use Rattle.slots.specs.Steps.{admit_after, admit_refusal, arriving, judged, start_after, start_answer};

use crate::line::SheetLine;
use board::Board;
use limits::Refusal;
use plans::Plan;
use queues::Queue;
use release::ReleaseRule;
use scripts::{Command, Line};

// The next run towards an instant that the clock has not come to.
pub(crate) fn run_on<R: ReleaseRule, Q: Queue, C: Queue>(
    board: &mut Board<R, Q, C>,
    instant: u64,
) -> SheetLine
    requires ahead { (model board.old).clock < instant }
    requires early { instant ≤ horizon }
    ensures answer { result ≡ next_run (model board.old) instant }
    ensures after { model board.new ≡ turns (stride (model board.old) instant) (model board.old) }
    ensures rule { board.new.rule ≡ board.old.rule }
{
    let before = board.clock();
    let run = board.advance(instant - before).unwrap();
    SheetLine::Run {
        instant: before,
        run,
    }
}

// Admits a server with the cap that the plan gives it.
fn admit<R: ReleaseRule, Q: Queue, C: Queue>(
    board: &mut Board<R, Q, C>,
    plan: &Plan,
    number: u8,
) -> Result<(), Refusal>
    ensures answer { result ≡ in_plan (server_of plan.now number) (λ v. judged (admit_refusal (model board.old) number v.cap) tt) }
    ensures after { model board.new ≡ from_plan (model board.old) (server_of plan.now number) (λ v. admit_after (model board.old) number v.cap) }
    ensures rule { board.new.rule ≡ board.old.rule }
{
    let server = plan.server(number).ok_or(Refusal::NotInPlan)?;
    board.admit(number, server.cap)
}

// Starts an action of the plan.
fn start<R: ReleaseRule, Q: Queue, C: Queue>(
    board: &mut Board<R, Q, C>,
    plan: &Plan,
    server: u8,
    number: u8,
) -> Result<u64, Refusal>
    ensures answer { result ≡ in_plan (action_of plan.now server number) (λ k. start_answer (R.ReleaseRule.amount board.old.rule) (model board.old) server (arriving (model board.old) k.task.load k.task.limit k.task.period)) }
    ensures after { model board.new ≡ from_plan (model board.old) (action_of plan.now server number) (λ k. start_after (R.ReleaseRule.amount board.old.rule) (model board.old) server (arriving (model board.old) k.task.load k.task.limit k.task.period)) }
    ensures rule { board.new.rule ≡ board.old.rule }
{
    let action = plan.action(server, number).ok_or(Refusal::NotInPlan)?;
    board.start(server, action.task)
}

// Makes the call of a script line, and gives the line that shows it; a wait shows none.
pub(crate) fn call<R: ReleaseRule, Q: Queue, C: Queue>(
    board: &mut Board<R, Q, C>,
    plan: &Plan,
    line: Line,
) -> Option<SheetLine>
    ensures answer { result ≡ shown (R.ReleaseRule.amount board.old.rule) plan.now (model board.old) line.instant line.command }
    ensures after { model board.new ≡ left_by (R.ReleaseRule.amount board.old.rule) plan.now (model board.old) line.command }
    ensures rule { board.new.rule ≡ board.old.rule }
{
    let instant = line.instant;
    match line.command {
        Command::Wait => None,
        Command::Admit(server) => Some(SheetLine::Admit {
            instant,
            server,
            answer: admit(board, plan, server),
        }),
        Command::Leave(server) => Some(SheetLine::Leave {
            instant,
            server,
            answer: board.leave(server),
        }),
        Command::Start(server, action) => Some(SheetLine::Start {
            instant,
            server,
            action,
            answer: start(board, plan, server, action),
        }),
    }
}
