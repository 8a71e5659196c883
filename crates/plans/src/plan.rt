// A plan: valid by its type.
ghost use Rattle.plans.specs.Plans.{valid};
ghost use Rattle.std.specs.Prelude.{◌≡◌, true};

use crate::server::Server;

mod methods;

pub use methods::MOST_PLAN_BYTES;

// The servers in plan order. Every value is in range, no server number stands twice and no action number twice in one
// server, and the plan has at most 1,024 records.
#[derive(Drop)]
pub struct Plan {
    servers: Vec<Server>,
    ghost ok: { valid servers.items ≡ true },
}
