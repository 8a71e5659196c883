// The late rule: an action waits for its first boundary.
ghost use Rattle.release.specs.Rules.{late};
ghost use Rattle.std.proofs.Common.{rules};

use crate::rule::ReleaseRule;

#[derive(Clone, Copy)]
pub struct Late;

impl ReleaseRule for Late {
    ghost amount = { λ _. late };

    ghost share = { Prim.search rules };

    ghost outside = { Prim.search rules };

    fn first_amount(&self, _limit: u32, _period: u32, _arrival: u64, _boundary: u64) -> u32 {
        0
    }
}
