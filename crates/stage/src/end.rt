// The end of every stack: it keeps the open numbers.
ghost use Rattle.std.specs.Prelude.{◌≡◌, []};
ghost use Rattle.stage.specs.Opened.{opened};
ghost use Rattle.stage.specs.Rules.{end_rule};
ghost use Rattle.std.proofs.Common.{rules};

use crate::interface::Stage;
use crate::numbers::{MOST_OPEN, OpenNumbers};
use crate::transfer::{Passed, Transfer, Verdict};
use wire::code::RejectCode;

#[derive(Clone, Copy)]
pub struct End {
    numbers: OpenNumbers,
}

impl End {
    pub fn new() -> End
        ensures { opened result.numbers ≡ [] }
    {
        End {
            numbers: OpenNumbers::new(),
        }
    }
}

impl Stage for End {
    ghost held = { λ s. opened s.numbers };

    ghost rule = { λ s. end_rule (opened s.numbers) };

    ghost expiry = { Prim.search rules };

    ghost fresh = { Prim.search rules };

    ghost once = { Prim.search rules };

    #[inline]
    fn look(&self, transfer: Transfer) -> Verdict {
        if self.numbers.has(transfer.number) {
            return Err(RejectCode::InternalError.into());
        }
        if self.numbers.count() >= MOST_OPEN {
            return Err(RejectCode::ConnectorBusy.into());
        }
        Ok(Passed {
            amount: transfer.amount,
            expiry: transfer.expiry,
        })
    }

    #[inline]
    fn take(&mut self, transfer: Transfer) {
        if !self.numbers.has(transfer.number) && self.numbers.count() < MOST_OPEN {
            self.numbers.add(transfer.number);
        }
    }

    fn close(&mut self, number: u32) {
        self.numbers.remove(number);
    }

    fn idle(&self) -> bool {
        self.numbers.count() == 0
    }
}
