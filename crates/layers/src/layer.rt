// What a layer is, apart from the stage below it.
ghost use Rattle.std.specs.Prelude.{◌≡◌, Result};
ghost use Rattle.stage.specs.declared.transfer.Transfer.{Transfer};
ghost use Rattle.stage.specs.declared.transfer.Rejected.{Rejected};
ghost use Rattle.layers.specs.Layers.{Kept};

use stage::transfer::{Rejected, Transfer};

// A layer's check: the transfer as it goes to the stage below, or the layer's own rejection.
pub trait Layer: Drop {
    ghost says: { Self → Transfer → Result Transfer Rejected };

    fn own(&self, transfer: Transfer) -> Result<Transfer, Rejected>
        ensures { result ≡ says self.now transfer };

    // What goes below has the transfer's number and no later expiry.
    ghost kept: { (x : Self) (t : Transfer) → Kept t (says x t) };
}
