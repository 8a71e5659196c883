// Plays stored lists of board calls under each release rule and on four makes of board, and prints every answer.
#![tactic(auto)]

use anyhow::anyhow;
use bits::ServerSet;
use board::Board;
use limits::{Task, refusal_number};
use packs::Items;
use queues::{Entry, HeapQueue, Queue, Row};
use release::{Early, Late, ReleaseRule};
use share::Call;
use slots::{Advanced, Sets, Ticked};
use std::{fmt, fs};
use windows::Window;

// A call has fourteen bytes: its kind, a server, and three numbers of four bytes, the low byte first.
fn call_of(bytes: [u8; 14]) -> Call {
    let number = |at: usize| u32::from_le_bytes(bytes[at..at + 4].try_into().unwrap());
    let server = bytes[1];
    match bytes[0] {
        0 => Call::Admit {
            server,
            cap: number(2),
        },
        1 => Call::Leave { server },
        2 => Call::Start {
            server,
            task: Task {
                load: number(2),
                limit: number(6),
                period: number(10),
            },
        },
        3 => Call::Tick,
        _ => Call::Advance {
            count: u64::from_le_bytes(bytes[2..10].try_into().unwrap()),
        },
    }
}

// Sets as numbers: the sums of 2^(s - 1) over their servers s.
#[derive(Drop)]
struct Words(Sets);

impl fmt::Display for Words {
    fn fmt<W: fmt::Write>(&self, f: &mut fmt::Formatter<W>) -> fmt::Result {
        let Sets {
            released,
            ended,
            late,
        } = self.0;
        write!(f, "{} {} {}", released.word, ended.word, late.word)
    }
}

// What a refused call shows.
const NO_SETS: Sets = Sets {
    released: ServerSet::EMPTY,
    ended: ServerSet::EMPTY,
    late: ServerSet::EMPTY,
};

const NO_TICK: Ticked = Ticked {
    served: None,
    sets: NO_SETS,
};

const NO_TICKS: Advanced = Advanced {
    served: None,
    ticks: 0,
    sets: NO_SETS,
};

// Makes the call, and prints what was asked and what was answered: the number of the refusal or 0, and the values of the
// answer, each 0 if the call was refused.
fn make_call<R: ReleaseRule, Q: Queue, C: Queue>(
    rt: &HostRuntime,
    board: &mut Board<R, Q, C>,
    call: Call,
) -> anyhow::Result<()> {
    match call {
        Call::Admit { server, cap } => {
            let refusal = refusal_number(&board.admit(server, cap));
            println!(rt; "admit {server} {cap} {refusal}")?;
        }
        Call::Leave { server } => {
            let refusal = refusal_number(&board.leave(server));
            println!(rt; "leave {server} {refusal}")?;
        }
        Call::Start { server, task } => {
            let answer = board.start(server, task);
            let refusal = refusal_number(&answer);
            let end = answer.unwrap_or(0);
            let Task {
                load,
                limit,
                period,
            } = task;
            println!(rt; "start {server} {load} {limit} {period} {refusal} {end}")?;
        }
        Call::Tick => {
            let answer = board.tick();
            let refusal = refusal_number(&answer);
            let tick = answer.unwrap_or(NO_TICK);
            let served = tick.served.unwrap_or(0);
            println!(rt; "tick {refusal} {served} {}", Words(tick.sets))?;
        }
        Call::Advance { count } => {
            let answer = board.advance(count);
            let refusal = refusal_number(&answer);
            let run = answer.unwrap_or(NO_TICKS);
            let served = run.served.unwrap_or(0);
            let ticks = run.ticks;
            println!(rt;
                "advance {count} {refusal} {served} {ticks} {}",
                Words(run.sets)
            )?;
        }
    }
    Ok(())
}

// A list of calls, its number, and the name of the rule that it is played under.
#[derive(Clone, Copy)]
struct Case<'a> {
    number: u64,
    rule: &'a str,
    list: &'a [[u8; 14]],
}

// Makes every call of the list on the board.
fn play<R: ReleaseRule + Drop, Q: Queue + Drop, C: Queue + Drop>(
    rt: &HostRuntime,
    make: &str,
    mut board: Board<R, Q, C>,
    case: Case<'_>,
) -> anyhow::Result<()> {
    println!(rt; "case {} {make} {}", case.number, case.rule)?;
    for bytes in case.list {
        make_call(rt, &mut board, call_of(*bytes))?;
    }
    Ok(())
}

// A queue over lent memory. By `map_err`, which takes the error with the memory in it, no proof closed. Another program
// of cases has these lines too: the error is the program's own.
fn heap_queue(memory: &mut [Entry]) -> anyhow::Result<HeapQueue<'_>> {
    match HeapQueue::new(memory) {
        Ok(queue) => Ok(queue),
        Err(_) => Err(anyhow!("too little memory")),
    }
}

// Plays the list on each make of board; each is named by its ready queue and its calendar.
fn play_makes<R: ReleaseRule + Copy>(
    rt: &HostRuntime,
    rule: R,
    case: Case<'_>,
) -> anyhow::Result<()> {
    let place = Entry {
        instant: 1,
        server: 1,
    };
    let mut ready = [place; 64];
    let mut calendar = [place; 64];
    let board = Board::new(rule, Row::new(), Row::new());
    play(rt, "row/row", board, case)?;
    let board = Board::new(rule, heap_queue(&mut ready)?, heap_queue(&mut calendar)?);
    play(rt, "heap/heap", board, case)?;
    let board = Board::new(rule, Row::new(), Window::new(Row::new()));
    play(rt, "row/window-row", board, case)?;
    let window = Window::new(heap_queue(&mut calendar)?);
    let board = Board::new(rule, heap_queue(&mut ready)?, window);
    play(rt, "heap/window-heap", board, case)
}

fn run(rt: &HostRuntime) -> anyhow::Result<()> {
    let pack = fs::read(rt, "calls.pack")?;
    for (number, bytes) in (1u64..).zip(Items::new(pack.as_slice())) {
        let (list, _) = bytes.as_chunks();
        let rule = "late";
        play_makes(rt, Late, Case { number, rule, list })?;
        let rule = "early";
        play_makes(rt, Early, Case { number, rule, list })?;
    }
    Ok(())
}

fn main(rt: HostRuntime) -> anyhow::Result<()> {
    run(&rt)
}
