// The lines of the sheet.
ghost use Rattle.timer_sheets.specs.Shown.{shown_line};
ghost use Rattle.std.specs.Prelude.{Some};

use limits::{Refusal, refusal_number};
use slots::Advanced;
use std::fmt;

// A call that the script asked for, at its instant, and its answer; or a run of ticks, at the instant before it.
#[derive(Clone, Copy)]
pub enum SheetLine {
    Admit {
        instant: u64,
        server: u8,
        answer: Result<(), Refusal>,
    },
    Leave {
        instant: u64,
        server: u8,
        answer: Result<(), Refusal>,
    },
    Start {
        instant: u64,
        server: u8,
        action: u8,
        answer: Result<u64, Refusal>,
    },
    Run {
        instant: u64,
        run: Advanced,
    },
}

// Parts joined by one space; the sets as sums of 2^(s - 1) over their servers s.
impl fmt::Display for SheetLine {
    ghost output = { λ l. Some (shown_line l) };

    fn fmt<W: fmt::Write>(&self, f: &mut fmt::Formatter<W>) -> fmt::Result {
        match *self {
            SheetLine::Admit {
                instant,
                server,
                answer,
            } => {
                let refusal = refusal_number(&answer);
                write!(f, "{instant} A {server} {refusal}")
            }
            SheetLine::Leave {
                instant,
                server,
                answer,
            } => {
                let refusal = refusal_number(&answer);
                write!(f, "{instant} L {server} {refusal}")
            }
            SheetLine::Start {
                instant,
                server,
                action,
                answer,
            } => {
                let refusal = refusal_number(&answer);
                let end = answer.unwrap_or(0);
                write!(f, "{instant} S {server} {action} {refusal} {end}")
            }
            SheetLine::Run { instant, run } => {
                let server = run.served.unwrap_or(0);
                let ticks = run.ticks;
                let released = run.sets.released.word;
                let ended = run.sets.ended.word;
                let late = run.sets.late.word;
                write!(f, "{instant} R {server} {ticks} {released} {ended} {late}")
            }
        }
    }
}
