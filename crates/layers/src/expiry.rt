// The layer that shortens expiries, so that there is time to claim what is fulfilled, and no packet is held too long.
ghost use Rattle.std.specs.Prelude.{◌≡◌};
ghost use Rattle.layers.specs.Layers.{expiry_own};
ghost use Rattle.layers.specs.Makings.{ExpiryMade};
ghost use Rattle.std.proofs.Common.{rules};

use crate::layer::Layer;
use crate::over::Over;
use crate::refusal::NotMade;
use stage::interface::Stage;
use stage::transfer::{Rejected, Transfer};
use wire::code::RejectCode;

pub const MOST_MARGIN: u64 = 60_000;

pub const MOST_HOLD: u64 = 3_600_000;

// Both in milliseconds: the margin comes off the transfer's expiry, and no packet is held longer than the hold.
#[derive(Clone, Copy)]
pub struct Times {
    margin: u64,
    hold: u64,
}

pub type Expiry<S> = Over<Times, S>;

impl<S: Stage> Over<Times, S> {
    // The layer over a stage that is idle, with a margin up to a minute and a hold of a millisecond to an hour.
    pub fn new(margin: u64, hold: u64, below: S) -> Result<Expiry<S>, NotMade<S>>
        ensures { ExpiryMade S.Stage.held margin hold below result }
    {
        if margin > MOST_MARGIN || !(1..=MOST_HOLD).contains(&hold) {
            return Err(NotMade { passed_in: below });
        }
        Over::put(Times { margin, hold }, below)
    }
}

impl Layer for Times {
    ghost says = { λ s. expiry_own s.margin s.hold };

    ghost kept = { Prim.search rules };

    // R02 where the expiry less the margin is not later than the time; else the smaller of that and the time with the hold.
    fn own(&self, transfer: Transfer) -> Result<Transfer, Rejected> {
        let until = transfer.expiry.saturating_sub(self.margin);
        if until <= transfer.time {
            return Err(RejectCode::InsufficientTimeout.into());
        }
        let expiry = until.min(transfer.time.saturating_add(self.hold));
        Ok(Transfer { expiry, ..transfer })
    }
}
