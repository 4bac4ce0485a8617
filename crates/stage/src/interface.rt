// What a stage is.
ghost use Rattle.std.specs.Prelude.{◌≡◌, ℕ, true, false, List, Result};
ghost use Rattle.stage.specs.declared.transfer.Transfer.{Transfer};
ghost use Rattle.stage.specs.declared.transfer.Passed.{Passed};
ghost use Rattle.stage.specs.declared.transfer.Rejected.{Rejected};
ghost use Rattle.stage.specs.Numbers.{among, none_twice, without, is_empty};
ghost use Rattle.stage.specs.Verdicts.{passes, NotLater, open_after, SameIfRejected};

use crate::transfer::{Transfer, Verdict};

// A stage looks at a transfer and says whether it passes, and in what form. A transfer that is taken stays open in the
// stage, under its number, until it is closed. A stage's rule may be any; the laws are what every stage shows.
pub trait Stage {
    // The open numbers, in the order taken.
    ghost held: { Self → List ℕ };

    // How `look` answers in the present state.
    ghost rule: { Self → Transfer → Result Passed Rejected };

    // Says what the rule says, and changes nothing.
    fn look(&self, transfer: Transfer) -> Verdict
        ensures { result ≡ rule self.now transfer };

    // Adds the transfer's number to the open ones where look passes it, and otherwise changes nothing.
    fn take(&mut self, transfer: Transfer)
        ensures numbers { held self.new ≡ open_after (held self.old) transfer (rule self.old transfer) }
        ensures unchanged { SameIfRejected (rule self.old transfer) self.old self.new };

    // Removes the number from the open ones; one that is not open changes nothing.
    fn close(&mut self, number: u32)
        ensures numbers { held self.new ≡ without (held self.old) number }
        ensures unchanged { among (held self.old) number ≡ false → self.new ≡ self.old };

    // Whether no number is open.
    fn idle(&self) -> bool
        ensures { result ≡ is_empty (held self.now) };

    // A passed expiry is never later than the transfer's own.
    ghost expiry: { (s : Self) (t : Transfer) → NotLater t (rule s t) };

    // A number that is open is never passed.
    ghost fresh: { (s : Self) (t : Transfer) → among (held s) t.number ≡ true → passes (rule s t) ≡ false };

    // No number is open twice.
    ghost once: { (s : Self) → none_twice (held s) ≡ true };
}
