// A plan in words, a line a record.
ghost use Rattle.plans.specs.Listing.{action_text, server_lines};
ghost use Rattle.plans.specs.Listing.{listing as listingText};
ghost use Rattle.plans.specs.Plans.{plan_records};
ghost use Rattle.plans.specs.Reads.{servers_of};
ghost use Rattle.std.specs.Prelude.{◌≡◌, length, IfOk, string_bytes, Some};

use crate::plan::Plan;
use crate::server::{Action, Server};
use std::alloc::{AllocError, Global};
use std::fmt;

impl fmt::Display for Action {
    ghost output = { λ a. Some (action_text a) };

    fn fmt<W: fmt::Write>(&self, f: &mut fmt::Formatter<W>) -> fmt::Result {
        let task = self.task;
        write!(
            f,
            "action {} load {} limit {} period {}",
            self.number, task.load, task.limit, task.period
        )
    }
}

// The line of a server, and one for each of its actions.
impl fmt::Display for Server {
    ghost output = { λ s. Some (server_lines s) };

    fn fmt<W: fmt::Write>(&self, f: &mut fmt::Formatter<W>) -> fmt::Result {
        writeln!(f, "server {} cap {}", self.number, self.cap)?;
        for action in &self.actions {
            writeln!(f, "{action}")?;
        }
        Ok(())
    }
}

// The line of the head, and those of each server.
impl fmt::Display for Plan {
    ghost output = { λ p. Some (listingText (servers_of p)) };

    fn fmt<W: fmt::Write>(&self, f: &mut fmt::Formatter<W>) -> fmt::Result {
        writeln!(f, "plan of {} records", self.records())?;
        for server in self.servers() {
            write!(f, "{server}")?;
        }
        Ok(())
    }
}

impl Plan {
    // How many records the plan has, with its head.
    pub fn records(&self) -> usize
        ensures answer { result ≡ length (plan_records (servers_of self.now)) }
    {
        let servers: usize = self
            .servers()
            .iter()
            .map(|server| 1 + server.actions.len())
            .sum();
        1 + servers
    }

    // The plan in words.
    pub fn listing(&self, heap: Global) -> Result<String, AllocError>
        ensures answer { IfOk result (λ text. string_bytes text ≡ listingText (servers_of self.now)) }
    {
        self.to_string(heap)
    }
}
