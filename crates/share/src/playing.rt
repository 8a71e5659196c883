// A list of calls, played on a new board.
ghost use Rattle.board.specs.Boards.{model};
ghost use Rattle.share.specs.Plays.{after_call, answer_of, answers_of};
ghost use Rattle.share.specs.Share.{Shares};
ghost use Rattle.slots.specs.Steps.{fresh};
ghost use Rattle.std.specs.Prelude.{◌≡◌, false, is_ok, IfOk};

use crate::calls::{Answer, Call, Outcome};
use board::Board;
use queues::Queue;
use release::ReleaseRule;
use std::alloc::{AllocError, Global};

// Performs one call.
pub fn perform<R: ReleaseRule, Q: Queue, C: Queue>(board: &mut Board<R, Q, C>, call: Call) -> Answer
    ensures answer { result ≡ answer_of (R.ReleaseRule.amount board.old.rule) (model board.old) call }
    ensures after { model board.new ≡ after_call (R.ReleaseRule.amount board.old.rule) (model board.old) call }
    ensures stays { is_ok result ≡ false → board.new ≡ board.old }
    ensures rule { board.new.rule ≡ board.old.rule }
{
    match call {
        Call::Admit { server, cap } => board.admit(server, cap).map(|()| Outcome::Done),
        Call::Leave { server } => board.leave(server).map(|()| Outcome::Done),
        Call::Start { server, task } => board.start(server, task).map(Outcome::Started),
        Call::Tick => board.tick().map(Outcome::Ticked),
        Call::Advance { count } => board.advance(count).map(Outcome::Advanced),
    }
}

// The answers of a new board to a list of calls. They keep the share law.
pub fn play<R: ReleaseRule + Drop, Q: Queue + Drop, C: Queue + Drop>(
    heap: Global,
    rule: R,
    ready: Q,
    calendar: C,
    calls: &[Call],
) -> Result<Vec<Answer>, AllocError>
    ensures answer { IfOk result (λ v. v.items ≡ answers_of (R.ReleaseRule.amount rule) fresh calls.now) }
    ensures law { IfOk result (λ v. Shares (R.ReleaseRule.amount rule) calls.now v.items) }
{
    let mut board = Board::new(rule, ready, calendar);
    let mut answers = Vec::new(heap);
    for call in calls {
        let answer = perform(&mut board, *call);
        answers.push(answer)?;
    }
    Ok(answers)
}
