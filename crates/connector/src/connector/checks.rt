// What a call tests first. Each test refuses by one number, before anything is changed.
ghost use Rattle.std.specs.Prelude.{◌≡◌, ◌<◌, ◌≤◌, true, false, length, Some, MatchResult};
ghost use Rattle.calendar.specs.Calendar.{last_instant};
ghost use Rattle.accounts.specs.Figures.{is_set_up};
ghost use Rattle.pending.specs.Rows.{lookup};
ghost use Rattle.protocol.specs.declared.refusal.Refusal.TheVariants.{ShortBuffer, NoAccount, TimeOutOfRange, NotPending};
ghost use Rattle.protocol.specs.Calls.{room_needed};
ghost use Rattle.connector.specs.Checks.{NoneUnsent};
ghost use Rattle.connector.specs.Views.{books_of};

use super::Connector;
use calendar::LAST_INSTANT;
use condition::interface::ConditionHash;
use packet_writer::writing::LONGEST_PACKET;
use pending::row::Pending;
use protocol::refusal::Refusal;
use stage::interface::Stage;

// A buffer takes any packet.
pub(super) fn check_room(buffer: &[u8]) -> Result<(), Refusal>
    ensures { MatchResult result (λ _. room_needed ≤ length buffer.now) (λ e. (e ≡ ShortBuffer) × (length buffer.now < room_needed)) }
{
    if buffer.len() < LONGEST_PACKET {
        return Err(Refusal::ShortBuffer);
    }
    Ok(())
}

// A time is one of the calendar's.
pub(super) fn check_time(time: u64) -> Result<(), Refusal>
    ensures { MatchResult result (λ _. time ≤ last_instant) (λ e. (e ≡ TimeOutOfRange) × (last_instant < time)) }
{
    if time > LAST_INSTANT {
        return Err(Refusal::TimeOutOfRange);
    }
    Ok(())
}

impl<S: Stage, H: ConditionHash> Connector<S, H> {
    // An account is set up.
    pub(super) fn check_account(&self, account: u8) -> Result<(), Refusal>
        ensures { MatchResult result (λ _. is_set_up (books_of self.now).accounts account ≡ true) (λ e. (e ≡ NoAccount) × (is_set_up (books_of self.now).accounts account ≡ false)) }
    {
        if !self.ledger.has_account(account) {
            return Err(Refusal::NoAccount);
        }
        Ok(())
    }

    // The row of a packet that is pending and not sent yet.
    pub(super) fn unsent_row(&self, number: u32) -> Result<Pending, Refusal>
        ensures { MatchResult result (λ r. (Some r ≡ lookup number (books_of self.now).rows) × (r.sent ≡ false)) (λ e. (e ≡ NotPending) × NoneUnsent (lookup number (books_of self.now).rows)) }
    {
        let row = self.ledger.lookup(number).ok_or(Refusal::NotPending)?;
        if row.sent {
            return Err(Refusal::NotPending);
        }
        Ok(row)
    }
}
