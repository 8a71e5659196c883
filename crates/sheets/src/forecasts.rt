// When each action of a plan ends if it starts at instant 0 under the late rule.
ghost use Rattle.plans.specs.Reads.{servers_of};
ghost use Rattle.sheets.specs.Forecasts.{forecast_lines, forecast_text, server_forecasts};
ghost use Rattle.std.specs.Prelude.{Some};

use plans::{Action, Plan, Server};
use release::{Late, forecast_end};
use std::fmt;

// Of an action of a server: 0 and the forecast end, or the refusal and 0.
#[derive(Drop)]
struct Forecast {
    server: u8,
    action: Action,
}

impl fmt::Display for Forecast {
    ghost output = { λ f. Some (forecast_text f.server f.action) };

    fn fmt<W: fmt::Write>(&self, f: &mut fmt::Formatter<W>) -> fmt::Result {
        let server = self.server;
        let number = self.action.number;
        match forecast_end(&Late, 0, self.action.task) {
            Ok(end) => write!(f, "forecast {server} {number} 0 {end}"),
            Err(why) => write!(f, "forecast {server} {number} {} 0", why.number()),
        }
    }
}

// A line for each action of a server.
#[derive(Drop)]
struct OfServer<'a>(&'a Server);

impl fmt::Display for OfServer<'_> {
    ghost output = { λ s. Some (server_forecasts s.0.now) };

    fn fmt<W: fmt::Write>(&self, f: &mut fmt::Formatter<W>) -> fmt::Result {
        let server = self.0.number;
        for action in &self.0.actions {
            let action = *action;
            writeln!(f, "{}", Forecast { server, action })?;
        }
        Ok(())
    }
}

// A line for each action of a plan, in plan order.
#[derive(Drop)]
pub struct Forecasts<'a>(pub &'a Plan);

impl fmt::Display for Forecasts<'_> {
    ghost output = { λ p. Some (forecast_lines (servers_of p.0.now)) };

    fn fmt<W: fmt::Write>(&self, f: &mut fmt::Formatter<W>) -> fmt::Result {
        for server in self.0.servers() {
            write!(f, "{}", OfServer(server))?;
        }
        Ok(())
    }
}
