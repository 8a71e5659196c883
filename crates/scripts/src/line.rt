// The lines of a script.
ghost use Rattle.scripts.specs.Lines.{command_text, shown_line};
ghost use Rattle.std.specs.Prelude.{Some};

use std::fmt;

// What a line asks for. The numbers are those of a server, and of an action of its plan.
#[derive(Clone, Copy, PartialEq, Eq, Debug)]
pub enum Command {
    Wait,
    Admit(u8),
    Leave(u8),
    Start(u8, u8),
}

// A command at an instant.
#[derive(Clone, Copy, PartialEq, Eq, Debug)]
pub struct Line {
    pub instant: u64,
    pub command: Command,
}

impl fmt::Display for Command {
    ghost output = { λ c. Some (command_text c) };

    fn fmt<W: fmt::Write>(&self, f: &mut fmt::Formatter<W>) -> fmt::Result {
        match self {
            Command::Wait => write!(f, "W"),
            Command::Admit(server) => write!(f, "A {server}"),
            Command::Leave(server) => write!(f, "L {server}"),
            Command::Start(server, action) => write!(f, "S {server} {action}"),
        }
    }
}

impl fmt::Display for Line {
    ghost output = { λ l. Some (shown_line l) };

    fn fmt<W: fmt::Write>(&self, f: &mut fmt::Formatter<W>) -> fmt::Result {
        write!(f, "{} {}", self.instant, self.command)
    }
}
