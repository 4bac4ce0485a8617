// How a pending packet comes to its end: by a Reject of our own here, and by the peer's answer elsewhere.
ghost use Rattle.std.specs.Prelude.{◌≡◌, ◌≤◌, false, ◌++◌, length, drop, is_ok, Some};
ghost use Rattle.stage.specs.Numbers.{among, without};
ghost use Rattle.pending.specs.Rows.{lookup};
ghost use Rattle.ledger.specs.Books.{closed};
ghost use Rattle.protocol.specs.Calls.{room_needed};
ghost use Rattle.protocol.specs.Messages.{our_bytes};
ghost use Rattle.protocol.specs.Turns.{ended_as, UnsentDoes, TickDoes};
ghost use Rattle.connector.specs.Replies.{end_reply, tick_reply};
ghost use Rattle.connector.specs.Views.{books_of, set_up_of, SetUpStays, SameUnless};

use super::Connector;
use super::checks::{check_room, check_time};
use crate::duty::SendDuty;
use condition::interface::ConditionHash;
use messages::writing::write_our_reject;
use pending::row::Pending;
use protocol::ended::Ended;
use protocol::refusal::Refusal;
use stage::interface::Stage;
use stage::transfer::Rejected;
use wire::code::RejectCode;

impl<S: Stage, H: ConditionHash> Connector<S, H> {
    // Removes a row, frees and where it was fulfilled books its amounts, and closes its number in the stack.
    pub(crate) fn end(&mut self, row: &Pending, fulfilled: bool)
        requires { lookup row.now.number (books_of self.old).rows ≡ Some row.now }
        ensures books { books_of self.new ≡ closed fulfilled row.now (books_of self.old) }
        ensures numbers { S.held self.new.stages ≡ without (S.held self.old.stages) row.now.number }
        ensures closed { among (S.held self.old.stages) row.now.number ≡ false → self.new.stages ≡ self.old.stages }
        ensures kept { SetUpStays self.old self.new }
    {
        self.ledger.end(row.number, fulfilled);
        self.stages.close(row.number);
    }

    // Writes a Reject of our own, and says whom it answers.
    pub(crate) fn reject(
        &self,
        sender: u8,
        request: u32,
        rejected: Rejected,
        buffer: &mut [u8],
    ) -> Ended
        requires { room_needed ≤ length buffer.old }
        ensures value { result ≡ ended_as sender request (our_bytes (set_up_of self.now).own rejected.code rejected.first rejected.second) }
        ensures buffer { buffer.new ≡ our_bytes (set_up_of self.now).own rejected.code rejected.first rejected.second ++ drop (length (our_bytes (set_up_of self.now).own rejected.code rejected.first rejected.second)) buffer.old }
    {
        Ended {
            sender,
            request,
            length: write_our_reject(&self.own, rejected, buffer),
        }
    }

    // Ends the packet of a duty that could not be sent, by T01. A refused call spends the duty too.
    pub fn unsent(&mut self, duty: SendDuty, buffer: &mut [u8]) -> Result<Ended, Refusal>
        ensures does { UnsentDoes S.held (set_up_of self.old) (books_of self.old) self.old.stages duty.number buffer.old (end_reply result) (books_of self.new) self.new.stages buffer.new }
        ensures kept { SetUpStays self.old self.new }
        ensures unchanged { SameUnless (is_ok result) self.old self.new }
    {
        let number = duty.spend();
        check_room(buffer)?;
        let row = self.unsent_row(number)?;
        self.end(&row, false);
        let code = RejectCode::PeerUnreachable;
        Ok(self.reject(row.sender, row.request, code.into(), buffer))
    }

    // Ends the packet that is due first, by R00; none where none is due.
    pub fn tick(&mut self, time: u64, buffer: &mut [u8]) -> Result<Option<Ended>, Refusal>
        ensures does { TickDoes S.held (set_up_of self.old) (books_of self.old) self.old.stages time buffer.old (tick_reply result) (books_of self.new) self.new.stages buffer.new }
        ensures kept { SetUpStays self.old self.new }
        ensures unchanged { SameUnless (is_ok result) self.old self.new }
    {
        check_room(buffer)?;
        check_time(time)?;
        self.ledger.advance(time);
        let Some(row) = self.ledger.first_expired() else {
            return Ok(None);
        };
        self.end(&row, false);
        let code = RejectCode::TransferTimedOut;
        let ended = self.reject(row.sender, row.request, code.into(), buffer);
        Ok(Some(ended))
    }
}
