// The layer that holds each incoming account to a greatest amount.
ghost use Rattle.std.specs.Prelude.{◌≡◌};
ghost use Rattle.layers.specs.Layers.{maximum_own};
ghost use Rattle.layers.specs.Makings.{MaximumMade};
ghost use Rattle.std.proofs.Common.{rules};

use crate::layer::Layer;
use crate::over::Over;
use crate::refusal::NotMade;
use stage::interface::Stage;
use stage::transfer::{Rejected, Transfer};
use wire::code::RejectCode;

// Any number of 64 bits for each of the eight accounts.
#[derive(Clone, Copy)]
pub struct GreatestAmounts {
    most: [u64; 8],
}

pub type Maximum<S> = Over<GreatestAmounts, S>;

impl<S: Stage> Over<GreatestAmounts, S> {
    // The layer over a stage that is idle.
    pub fn new(most: [u64; 8], below: S) -> Result<Maximum<S>, NotMade<S>>
        ensures { MaximumMade S.Stage.held most below result }
    {
        Over::put(GreatestAmounts { most }, below)
    }
}

impl Layer for GreatestAmounts {
    ghost says = { λ s. maximum_own s.most };

    ghost kept = { Prim.search rules };

    // F08 for a greater amount, with the amount and the maximum.
    fn own(&self, transfer: Transfer) -> Result<Transfer, Rejected> {
        let most = self.most[transfer.accounts.incoming() as usize];
        if transfer.amount <= most {
            return Ok(transfer);
        }
        Err(Rejected {
            code: RejectCode::AmountTooLarge,
            first: transfer.amount,
            second: most,
        })
    }
}
