// What a plan holds: servers, and the actions of each.
use crate::numbered::Numbered;
use limits::Task;

// One reply that a server owes.
#[derive(Clone, Copy, PartialEq, Eq, Debug)]
pub struct Action {
    pub number: u8,
    pub task: Task,
}

// One peer: its cap is its part of the processor. Its actions stand in plan order.
#[derive(Debug, Drop)]
pub struct Server {
    pub number: u8,
    pub cap: u32,
    pub actions: Vec<Action>,
}

impl Numbered for Action {
    ghost numberOf = { λ a. a.number };

    fn number(&self) -> u8 {
        self.number
    }
}

impl Numbered for Server {
    ghost numberOf = { λ s. s.number };

    fn number(&self) -> u8 {
        self.number
    }
}
