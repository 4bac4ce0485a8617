// A layer over a stage.
ghost use Rattle.std.specs.Prelude.{◌≡◌};
ghost use Rattle.layers.specs.Layers.{over};
ghost use Rattle.layers.specs.Makings.{OverMade};
ghost use Rattle.std.proofs.Common.{rules};

use crate::layer::Layer;
use crate::refusal::NotMade;
use stage::interface::Stage;
use stage::transfer::{Transfer, Verdict};

#[derive(Drop)]
pub struct Over<L, S> {
    layer: L,
    below: S,
}

impl<L: Layer, S: Stage> Over<L, S> {
    // The layer over a stage that is idle; else the stage comes back.
    pub fn put(layer: L, below: S) -> Result<Over<L, S>, NotMade<S>>
        ensures { OverMade S.Stage.held layer below result }
    {
        if !below.idle() {
            return Err(NotMade { passed_in: below });
        }
        Ok(Over { layer, below })
    }
}

impl<L: Layer, S: Stage> Stage for Over<L, S> {
    ghost held = { λ s. S.Stage.held s.below };

    ghost rule = { λ s t. over (L.Layer.says s.layer t) (S.Stage.rule s.below) };

    ghost expiry = { Prim.search rules };

    ghost fresh = { Prim.search rules };

    ghost once = { λ s. S.Stage.once s.below };

    #[inline]
    fn look(&self, transfer: Transfer) -> Verdict {
        let changed = self.layer.own(transfer)?;
        self.below.look(changed)
    }

    #[inline]
    fn take(&mut self, transfer: Transfer) {
        if let Ok(changed) = self.layer.own(transfer) {
            self.below.take(changed);
        }
    }

    fn close(&mut self, number: u32) {
        self.below.close(number);
    }

    fn idle(&self) -> bool {
        self.below.idle()
    }
}
