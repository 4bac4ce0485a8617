// What a peer answers.
ghost use Rattle.std.specs.Prelude.{◌≡◌, ℕ, ◌≤◌, false, ◌&&◌, List, ◌++◌, length, drop, is_ok, Some, ◌==◌};
ghost use Rattle.packet.specs.Encoding.{WellFormed};
ghost use Rattle.packet.specs.Values.{answer_of};
ghost use Rattle.stage.specs.Numbers.{among, without};
ghost use Rattle.pending.specs.Rows.{lookup};
ghost use Rattle.ledger.specs.Books.{closed};
ghost use Rattle.protocol.specs.Calls.{room_needed, ending_by};
ghost use Rattle.protocol.specs.Outcomes.{is_paid};
ghost use Rattle.protocol.specs.Turns.{ended_as, ending_bytes, AnswerDoes};
ghost use Rattle.connector.specs.Endings.{ending_of, answered_by};
ghost use Rattle.connector.specs.Replies.{end_reply};
ghost use Rattle.connector.specs.Views.{books_of, set_up_of, SetUpStays, SameUnless};

use super::Connector;
use super::checks::{check_room, check_time};
use crate::ending::Ending;
use condition::fulfilment::fulfils;
use condition::interface::ConditionHash;
use messages::writing::pass_on;
use packet::reading::read_answer;
use packet::value::Answer;
use pending::row::Pending;
use protocol::ended::Ended;
use protocol::refusal::Refusal;
use stage::interface::Stage;
use wire::code::RejectCode;

impl<S: Stage, H: ConditionHash> Connector<S, H> {
    // How an answer ends a row: whether it comes too late is judged first, and then what it brings.
    fn ending(&self, row: &Pending, answer: Answer<'_>) -> Ending
        requires { WellFormed (answer_of answer) }
        ensures { (bytes : List ℕ) → ending_of bytes result ≡ ending_by H.digest_of (books_of self.now).time bytes row.now (answered_by answer.entry) }
    {
        if self.ledger.time() >= row.expiry {
            return Ending::Ours(RejectCode::TransferTimedOut);
        }
        let Answer::Fulfill(fulfill) = answer else {
            return Ending::PassedOn;
        };
        if fulfils(&self.hash, fulfill.fulfilment, &row.condition) {
            return Ending::Paid;
        }
        Ending::Ours(RejectCode::WrongCondition)
    }

    // A peer answers a packet that was sent to it.
    pub fn answer(
        &mut self,
        account: u8,
        number: u32,
        time: u64,
        bytes: &[u8],
        buffer: &mut [u8],
    ) -> Result<Ended, Refusal>
        ensures does { AnswerDoes S.held H.digest_of (set_up_of self.old) (books_of self.old) self.old.stages account number time bytes.now buffer.old (end_reply result) (books_of self.new) self.new.stages buffer.new }
        ensures kept { SetUpStays self.old self.new }
        ensures unchanged { SameUnless (is_ok result) self.old self.new }
    {
        check_room(buffer)?;
        self.check_account(account)?;
        check_time(time)?;
        let row = self.ledger.lookup(number).ok_or(Refusal::NotPending)?;
        if !is_theirs(&row, account) {
            return Err(Refusal::NotPending);
        }
        let answer = read_answer(bytes)?;
        self.ledger.advance(time);
        let ending = self.ending(&row, answer);
        Ok(self.finish(&row, ending, bytes, buffer))
    }

    // Ends a row so: by the peer's own bytes, or by a Reject of our own. Says whom it answers.
    fn finish(&mut self, row: &Pending, ending: Ending, bytes: &[u8], buffer: &mut [u8]) -> Ended
        requires found { lookup row.now.number (books_of self.old).rows ≡ Some row.now }
        requires room { room_needed ≤ length buffer.old }
        requires short { length bytes.now ≤ room_needed }
        ensures value { result ≡ ended_as row.now.sender row.now.request (ending_bytes (set_up_of self.old).own (ending_of bytes.now ending)) }
        ensures buffer { buffer.new ≡ ending_bytes (set_up_of self.old).own (ending_of bytes.now ending) ++ drop (length (ending_bytes (set_up_of self.old).own (ending_of bytes.now ending))) buffer.old }
        ensures books { books_of self.new ≡ closed (is_paid (ending_of bytes.now ending)) row.now (books_of self.old) }
        ensures numbers { S.held self.new.stages ≡ without (S.held self.old.stages) row.now.number }
        ensures closed { among (S.held self.old.stages) row.now.number ≡ false → self.new.stages ≡ self.old.stages }
        ensures kept { SetUpStays self.old self.new }
    {
        match ending {
            Ending::Paid => {
                self.end(row, true);
                pass_back(row, bytes, buffer)
            }
            Ending::PassedOn => {
                self.end(row, false);
                pass_back(row, bytes, buffer)
            }
            Ending::Ours(code) => {
                self.end(row, false);
                self.reject(row.sender, row.request, code.into(), buffer)
            }
        }
    }
}

// Whether a row is an account's to answer: it went there, and it was sent.
fn is_theirs(row: &Pending, account: u8) -> bool
    ensures { result ≡ (row.now.outgoing == account && row.now.sent) }
{
    row.outgoing == account && row.sent
}

// Writes the peer's own bytes, and says whom they answer.
fn pass_back(row: &Pending, bytes: &[u8], buffer: &mut [u8]) -> Ended
    requires { length bytes.now ≤ length buffer.old }
    ensures value { result ≡ ended_as row.now.sender row.now.request bytes.now }
    ensures buffer { buffer.new ≡ bytes.now ++ drop (length bytes.now) buffer.old }
{
    Ended {
        sender: row.sender,
        request: row.request,
        length: pass_on(bytes, buffer),
    }
}
