// A run of the sheet, which gives one line after another.
ghost use Rattle.scripts.specs.Agendas.{coming};
ghost use Rattle.timer_sheets.specs.Timely.{Timely};
ghost use Rattle.std.proofs.Props.{props};
ghost use Rattle.std.specs.Option.{ForNone, option_to_list};
ghost use Rattle.std.specs.Prelude.{◌≡◌, ◌++◌, length};

use board::Board;
use plans::Plan;
use queues::Queue;
use release::ReleaseRule;
use scripts::{Agenda, Line};

mod steps;

// The board as the script has brought it so far, the script's line that it is brought to, and those after it. What
// remains to be shown is the list `to_come` of these. No line lies past the horizon, and where none is awaited none is
// left.
#[derive(Drop)]
pub struct Run<'p, 'a, 'l, 'm, R: ReleaseRule, Q: Queue, C: Queue> {
    plan: &'p Plan,
    agenda: &'a mut Agenda<'l, 'm>,
    awaited: Option<Line>,
    board: Board<R, Q, C>,
    ghost early: { Timely (option_to_list awaited ++ coming agenda.now) } by { Prim.hlevel props },
    ghost over: { ForNone awaited (length (coming agenda.now) ≡ 0) },
}
