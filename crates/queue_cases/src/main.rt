// Plays one stored list of operations on each make of a queue, and prints every answer.
#![tactic(auto)]

use anyhow::anyhow;
use limits::refusal_number;
use queues::{Entry, HeapQueue, Queue, Row};
use std::{fmt, fs};
use windows::Window;

// A call of a queue.
#[derive(Clone, Copy)]
enum Operation {
    Put { server: u8, instant: u64 },
    Take,
    Least,
    Holds { server: u8 },
}

// An operation has ten bytes: its kind, a server, and an instant, the low byte first.
impl From<[u8; 10]> for Operation {
    fn from(bytes: [u8; 10]) -> Operation {
        let server = bytes[1];
        match bytes[0] {
            0 => Operation::Put {
                server,
                instant: u64::from_le_bytes(bytes[2..].try_into().unwrap()),
            },
            1 => Operation::Take,
            2 => Operation::Least,
            _ => Operation::Holds { server },
        }
    }
}

// The entry that a queue gives, if it has one.
#[derive(Drop)]
struct Given(Option<Entry>);

impl fmt::Display for Given {
    fn fmt<W: fmt::Write>(&self, f: &mut fmt::Formatter<W>) -> fmt::Result {
        match self.0 {
            Some(entry) => write!(f, "{} {}", entry.server, entry.instant),
            None => write!(f, "none"),
        }
    }
}

// Makes the call, and prints its answer.
fn call<Q: Queue>(rt: &HostRuntime, queue: &mut Q, operation: Operation) -> anyhow::Result<()> {
    match operation {
        Operation::Put { server, instant } => {
            let refusal = refusal_number(&queue.put(server, instant));
            println!(rt; "put {server} {instant} {refusal}")?;
        }
        Operation::Take => println!(rt; "take {}", Given(queue.take()))?,
        Operation::Least => println!(rt; "least {}", Given(queue.least()))?,
        Operation::Holds { server } => {
            let held = queue.holds(server) as u8;
            println!(rt; "holds {server} {held}")?;
        }
    }
    Ok(())
}

// Makes every call of the list on the queue.
fn play<Q: Queue + Drop>(
    rt: &HostRuntime,
    make: &str,
    mut queue: Q,
    list: &[[u8; 10]],
) -> anyhow::Result<()> {
    println!(rt; "make {make}")?;
    for bytes in list {
        call(rt, &mut queue, Operation::from(*bytes))?;
    }
    Ok(())
}

// A queue over lent memory. By `map_err`, which takes the error with the memory in it, no proof closed. Another program
// of cases has these lines too: the error is the program's own.
fn heap_queue(memory: &mut [Entry]) -> anyhow::Result<HeapQueue<'_>> {
    match HeapQueue::new(memory) {
        Ok(queue) => Ok(queue),
        Err(_) => Err(anyhow!("too little memory")),
    }
}

fn run(rt: &HostRuntime) -> anyhow::Result<()> {
    let bytes = fs::read(rt, "operations.bin")?;
    let (list, _) = bytes.as_slice().as_chunks();
    let mut memory = [Entry {
        instant: 1,
        server: 1,
    }; 64];
    let window = Window::new(Row::new());
    play(rt, "row", Row::new(), list)?;
    play(rt, "heap queue", heap_queue(&mut memory)?, list)?;
    play(rt, "window over row", window, list)?;
    play(
        rt,
        "window over heap queue",
        Window::new(heap_queue(&mut memory)?),
        list,
    )?;
    play(
        rt,
        "window over window over row",
        Window::new(Window::new(Row::new())),
        list,
    )
}

fn main(rt: HostRuntime) -> anyhow::Result<()> {
    run(&rt)
}
