// A Prepare that comes in.
ghost use Rattle.std.specs.Prelude.{◌≡◌, ℕ, ◌+◌, ◌≤◌, [], ◌∷◌, ◌++◌, length, drop, is_ok, Ok};
ghost use Rattle.packet.specs.Encoding.{PrepareFits};
ghost use Rattle.ledger.specs.Books.{next_row, admitted};
ghost use Rattle.protocol.specs.Messages.{forwarded_bytes, our_bytes};
ghost use Rattle.protocol.specs.Outcomes.{forwarded};
ghost use Rattle.protocol.specs.Turns.{ended_as, PrepareDoes};
ghost use Rattle.connector.specs.Replies.{forwarded_reply, prepared_reply};
ghost use Rattle.packet.specs.Values.{prepare_of};
ghost use Rattle.protocol.specs.Calls.{by_prepare, room_needed, reservation_for};
ghost use Rattle.connector.specs.Decisions.{goes_to, going, decided, Ready};
ghost use Rattle.connector.specs.Views.{books_of, set_up_of, SetUpStays, SameUnless};

use super::Connector;
use super::checks::{check_room, check_time};
use crate::duty::SendDuty;
use crate::prepared::{Forwarded, Onward, Prepared};
use accounts::hold::Hold;
use condition::interface::ConditionHash;
use ledger::reservation::Reservation;
use messages::writing::write_onward;
use packet::reading::read_prepare;
use packet::value::Prepare;
use protocol::ended::Rejected as TurnedAway;
use protocol::refusal::Refusal;
use stage::accounts::AccountPair;
use stage::interface::Stage;
use stage::transfer::{Rejected, Transfer};
use wire::code::RejectCode;

impl<S: Stage, H: ConditionHash> Connector<S, H> {
    // A peer sends a Prepare.
    pub fn prepare(
        &mut self,
        account: u8,
        request: u32,
        time: u64,
        bytes: &[u8],
        buffer: &mut [u8],
    ) -> Result<Prepared, Refusal>
        ensures does { PrepareDoes S.held S.rule (set_up_of self.old) (books_of self.old) self.old.stages account request time bytes.now buffer.old (prepared_reply result) (books_of self.new) self.new.stages buffer.new }
        ensures kept { SetUpStays self.old self.new }
        ensures unchanged { SameUnless (is_ok result) self.old self.new }
    {
        check_room(buffer)?;
        self.check_account(account)?;
        check_time(time)?;
        self.ledger.advance(time);
        let prepare = match read_prepare(bytes) {
            Ok(prepare) => prepare,
            Err(fault) => {
                let code = RejectCode::InvalidPacket;
                let ended = self.reject(account, request, code.into(), buffer);
                let fault = Some(fault);
                return Ok(Prepared::Rejected(TurnedAway { ended, fault }));
            }
        };
        match self.decide(account, &prepare) {
            Err(rejected) => {
                let ended = self.reject(account, request, rejected, buffer);
                Ok(Prepared::Rejected(TurnedAway { ended, fault: None }))
            }
            Ok(onward) => Ok(Prepared::Forwarded(self.forward(
                account, request, &prepare, onward, buffer,
            ))),
        }
    }

    // Whether a Prepare goes on, and in which form, or the first reason that it does not.
    fn decide(&self, account: u8, prepare: &Prepare<'_>) -> Result<Onward, Rejected>
        ensures value { (q : ℕ) → decided (books_of self.now) account q (prepare_of prepare.now) result ≡ by_prepare (S.rule self.now.stages) (set_up_of self.now) (books_of self.now) account q (books_of self.now).time (Ok (prepare_of prepare.now)) }
        ensures ready { Ready (S.rule self.now.stages) (books_of self.now) account (prepare_of prepare.now) result }
    {
        let number = self.ledger.next_number().ok_or(RejectCode::InternalError)?;
        if self.ledger.is_full() {
            return Err(RejectCode::ConnectorBusy.into());
        }
        let time = self.ledger.time();
        if prepare.expiry <= time {
            return Err(RejectCode::TransferTimedOut.into());
        }
        let to = self
            .routes
            .find(prepare.destination)
            .ok_or(RejectCode::Unreachable)?;
        let accounts = AccountPair::new(account, to).ok_or(RejectCode::Unreachable)?;
        if !self.ledger.can_hold_in(account, prepare.amount) {
            return Err(RejectCode::InsufficientLiquidity.into());
        }
        let transfer = Transfer {
            number,
            accounts,
            amount: prepare.amount,
            expiry: prepare.expiry,
            time,
        };
        let passed = self.stages.look(transfer)?;
        if !self.ledger.can_hold_out(to, passed.amount) {
            return Err(RejectCode::InsufficientLiquidity.into());
        }
        Ok(Onward { transfer, passed })
    }

    // Reserves what was decided, takes it in the stack, and writes the packet as it goes on.
    fn forward(
        &mut self,
        account: u8,
        request: u32,
        prepare: &Prepare<'_>,
        onward: Onward,
        buffer: &mut [u8],
    ) -> Forwarded
        requires ready { Ready (S.rule self.old.stages) (books_of self.old) account (prepare_of prepare.now) (Ok onward) }
        requires fits { PrepareFits (prepare_of prepare.now) }
        requires room { room_needed ≤ length buffer.old }
        ensures value { forwarded_reply result ≡ forwarded ((books_of self.old).last + 1) (goes_to onward) (length (forwarded_bytes (going (prepare_of prepare.now) onward))) ((books_of self.old).last + 1) }
        ensures buffer { buffer.new ≡ forwarded_bytes (going (prepare_of prepare.now) onward) ++ drop (length (forwarded_bytes (going (prepare_of prepare.now) onward))) buffer.old }
        ensures books { books_of self.new ≡ admitted (next_row (books_of self.old) (reservation_for account request (prepare_of prepare.now) (goes_to onward) onward.passed)) (books_of self.old) }
        ensures numbers { S.held self.new.stages ≡ S.held self.old.stages ++ ((books_of self.old).last + 1) ∷ [] }
        ensures kept { SetUpStays self.old self.new }
    {
        let to = onward.transfer.accounts.outgoing();
        let mut condition = [0; 32];
        condition.copy_from_slice(prepare.condition);
        self.ledger.reserve(Reservation {
            hold: Hold {
                sender: account,
                outgoing: to,
                amount_in: prepare.amount,
                amount_out: onward.passed.amount,
            },
            request,
            expiry: onward.passed.expiry,
            condition,
        });
        self.stages.take(onward.transfer);
        let number = onward.transfer.number;
        Forwarded {
            number,
            account: to,
            length: write_onward(prepare, onward.passed, buffer),
            duty: SendDuty::new(number),
        }
    }
}
