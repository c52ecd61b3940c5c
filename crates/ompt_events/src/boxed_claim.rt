//! The claim of a record, in memory of its own. Contracts see it as the claim.
ghost use Rattle.std.specs.Prelude.{◌≡◌, IfOk};

use crate::records::Claim;
use std::alloc::{AllocError, Global};
use std::marker::Model;

/// A claim in memory of its own, so that a record without one is small.
#[derive(Debug, Drop)]
pub struct BoxedClaim {
    claim: Box<Claim>,
}

impl Model for BoxedClaim {
    ghost use Rattle.ompt_events.specs.declared.records.Claim.{Claim};

    ghost Value = { Claim };

    ghost view = { λ boxed. boxed.claim.value };
}

impl PartialEq for BoxedClaim {
    ghost use Rattle.ompt_events.specs.contracts.records.ClaimPartialEq.TheImpl as claims;
    ghost use Rattle.ompt_events.specs.contracts.records.ClaimPartialEq.TheImpl.Laws.{laws-law};

    ghost eq = { (claims.ghosts).eq };

    ghost laws = { laws-law };

    fn eq(&self, other: &Self) -> bool {
        self.get() == other.get()
    }
}

impl BoxedClaim {
    /// Returns the claim in memory of its own. Fails only when out of memory.
    pub fn new(alloc: Global, claim: Claim) -> Result<BoxedClaim, AllocError>
        ensures { IfOk result (λ made. made ≡ claim) }
    {
        Ok(BoxedClaim {
            claim: Box::new(alloc, claim)?,
        })
    }

    /// Returns the claim.
    pub fn get(&self) -> &Claim
        ensures { result.now ≡ self.now }
    {
        &self.claim
    }
}
