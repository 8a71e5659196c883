// What a caller may ask of a board, and what it is answered.
use limits::{Refusal, Task};
use slots::{Advanced, Ticked};

#[derive(Clone, Copy)]
pub enum Call {
    Admit { server: u8, cap: u32 },
    Leave { server: u8 },
    Start { server: u8, task: Task },
    Tick,
    Advance { count: u64 },
}

// What an accepted call answers: an admission and a leave are done, a start answers its forecast end.
#[derive(Clone, Copy)]
pub enum Outcome {
    Done,
    Started(u64),
    Ticked(Ticked),
    Advanced(Advanced),
}

pub type Answer = Result<Outcome, Refusal>;
