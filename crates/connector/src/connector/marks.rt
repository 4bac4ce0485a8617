// Saying that a packet was sent.
ghost use Rattle.std.specs.Prelude.{◌≡◌, is_ok};
ghost use Rattle.protocol.specs.Turns.{SentDoes};
ghost use Rattle.connector.specs.Replies.{sent_reply};
ghost use Rattle.connector.specs.Views.{books_of, set_up_of, SetUpStays, SameUnless};

use super::Connector;
use crate::duty::SendDuty;
use condition::interface::ConditionHash;
use protocol::refusal::Refusal;
use stage::interface::Stage;

impl<S: Stage, H: ConditionHash> Connector<S, H> {
    // Marks the packet of a duty as sent, and touches no other. A refused call spends the duty too.
    pub fn sent(&mut self, duty: SendDuty) -> Result<(), Refusal>
        ensures does { SentDoes S.held (set_up_of self.old) (books_of self.old) self.old.stages duty.number (sent_reply result) (books_of self.new) self.new.stages }
        ensures kept { SetUpStays self.old self.new }
        ensures unchanged { SameUnless (is_ok result) self.old self.new }
    {
        let number = duty.spend();
        self.unsent_row(number)?;
        self.ledger.mark(number);
        Ok(())
    }
}
