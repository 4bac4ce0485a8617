// A stage of an operator's own, complete: a layer over any stage that turns away amounts below a least one. It is written
// out to show the interface's four functions; `layers::layer::Layer` does with one.
#![tactic(auto)]

ghost use Rattle.std.specs.Prelude.{◌≡◌};
ghost use Rattle.example_stage.specs.Least.{least_rule, Made};
ghost use Rattle.std.proofs.Common.{rules};

use stage::interface::Stage;
use stage::transfer::{Transfer, Verdict};
use wire::code::RejectCode;

#[derive(Drop)]
pub struct Least<S> {
    least: u64,
    below: S,
}

impl<S: Stage> Least<S> {
    // The layer over a stage that is idle; else the stage comes back.
    pub fn new(least: u64, below: S) -> Result<Least<S>, S>
        ensures { Made S.Stage.held least below result }
    {
        if !below.idle() {
            return Err(below);
        }
        Ok(Least { least, below })
    }
}

impl<S: Stage> Stage for Least<S> {
    // its open numbers are those of the stage below
    ghost held = { λ s. S.Stage.held s.below };

    // F03 for an amount below the least; else what the stage below says
    ghost rule = { λ s t. least_rule s.least (S.Stage.rule s.below) t };

    ghost expiry = { Prim.search rules };

    ghost fresh = { Prim.search rules };

    ghost once = { Prim.search rules };

    fn look(&self, transfer: Transfer) -> Verdict {
        if transfer.amount < self.least {
            return Err(RejectCode::InvalidAmount.into());
        }
        self.below.look(transfer)
    }

    fn take(&mut self, transfer: Transfer) {
        if transfer.amount >= self.least {
            self.below.take(transfer);
        }
    }

    fn close(&mut self, number: u32) {
        self.below.close(number);
    }

    fn idle(&self) -> bool {
        self.below.idle()
    }
}
