// The layer that changes money: each account has a price, and an amount is worth its amount times its price.
ghost use Rattle.std.specs.Prelude.{◌≡◌};
ghost use Rattle.layers.specs.Layers.{rate_own, converted};
ghost use Rattle.layers.specs.Makings.{RateMade};
ghost use Rattle.std.proofs.Common.{rules};

use crate::layer::Layer;
use crate::over::Over;
use crate::prices::Prices;
use crate::refusal::NotMade;
use stage::interface::Stage;
use stage::transfer::{Rejected, Transfer};
use wire::code::RejectCode;

// The greatest amount that goes out: 2^63 - 1.
pub const MOST_AMOUNT: u128 = 9_223_372_036_854_775_807;

pub type Rate<S> = Over<Prices, S>;

impl<S: Stage> Over<Prices, S> {
    // The layer over a stage that is idle, with prices of 1 to 4,294,967,295.
    pub fn new(of: [u32; 8], below: S) -> Result<Rate<S>, NotMade<S>>
        ensures { RateMade S.Stage.held of below result }
    {
        match Prices::new(of) {
            Some(prices) => Over::put(prices, below),
            None => Err(NotMade { passed_in: below }),
        }
    }
}

// T04 for a result that is too great; R01 where something becomes nothing.
fn onward(transfer: Transfer, amount: u128) -> Result<Transfer, Rejected>
    ensures { result ≡ converted transfer amount }
{
    if amount > MOST_AMOUNT {
        return Err(RejectCode::InsufficientLiquidity.into());
    }
    if amount == 0 && transfer.amount > 0 {
        return Err(RejectCode::InsufficientSourceAmount.into());
    }
    Ok(Transfer {
        amount: amount as u64,
        ..transfer
    })
}

impl Layer for Prices {
    ghost says = { λ s. rate_own s.of };

    ghost kept = { Prim.search rules };

    // The amount times the incoming price, divided by the outgoing price, rounded down.
    fn own(&self, transfer: Transfer) -> Result<Transfer, Rejected> {
        let incoming = u128::from(self.price(transfer.accounts.incoming()));
        let outgoing = u128::from(self.price(transfer.accounts.outgoing()));
        onward(transfer, u128::from(transfer.amount) * incoming / outgoing)
    }
}
