// The early rule: up to its first boundary an action may use its limit's share of the time.
ghost use Rattle.release.specs.Rules.{early};
ghost use Rattle.std.proofs.Common.{rules};

use crate::rule::{ReleaseRule, in_range};

#[derive(Clone, Copy)]
pub struct Early;

impl ReleaseRule for Early {
    ghost amount = { λ _. early };

    ghost share = { Prim.search rules };

    ghost outside = { Prim.search rules };

    fn first_amount(&self, limit: u32, period: u32, arrival: u64, boundary: u64) -> u32 {
        if in_range(limit, period, arrival, boundary) {
            (limit as u64 * (boundary - arrival) / period as u64) as u32
        } else {
            0
        }
    }
}
