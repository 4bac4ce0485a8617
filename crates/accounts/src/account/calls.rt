// What comes in and what goes out mirror each other, by another field, another limit and another sign, so each has its
// own function. How an account is made and changed. A call takes the account and gives the one after it; where it gives none, the
// caller's own is as it was.
ghost use Rattle.std.specs.Prelude.{◌≡◌, ◌<◌, ◌^◌, cond, pos};
ghost use Rattle.std.specs.Bool.{then_some};
ghost use Rattle.accounts.specs.Figures.{Keeps, new_account, limits_fit, room_in, room_out, takes_in, takes_out, holds_in, holds_out, hold_in, hold_out, end_in, end_out, settled, can_settle};
ghost use Rattle.accounts.specs.Views.{figures_of, shown};
ghost use Rattle.accounts.specs.Ways.{way_number};

use super::Account;
use crate::figures::Figures;
use crate::way::Way;

// The greatest ceiling, and the greatest floor.
pub const MOST_LIMIT: u64 = 4_000_000_000_000_000_000;

// What is booked where a held amount ends: all of it where it was fulfilled.
fn booked(amount: u64, fulfilled: bool) -> i64
    requires { amount < 2 ^ 63 }
    ensures { result ≡ cond fulfilled (pos amount) (pos 0) }
{
    if fulfilled { amount as i64 } else { 0 }
}

impl Account {
    // A new account, or none where a limit is out of bounds.
    pub fn new(ceiling: u64, floor: u64) -> Option<Account>
        ensures { shown result ≡ then_some (limits_fit ceiling floor) (new_account ceiling floor) }
    {
        if ceiling > MOST_LIMIT || floor > MOST_LIMIT {
            return None;
        }
        Some(Account::of(Figures {
            balance: 0,
            held_in: 0,
            held_out: 0,
            ceiling,
            floor,
        }))
    }

    // The account of figures that keep both limits.
    pub(crate) fn of(figures: Figures) -> Account
        requires { Keeps figures }
        ensures { figures_of result ≡ figures }
    {
        Account { figures }
    }

    pub fn figures(self) -> Figures
        ensures { result ≡ figures_of self }
    {
        self.figures
    }

    // What may still be held in: the ceiling is over the balance and what is held in together.
    pub(crate) fn room_in(self) -> u64
        ensures { pos result ≡ room_in (figures_of self) }
    {
        (self.figures.ceiling as i64 - self.figures.balance) as u64 - self.figures.held_in
    }

    // What may still be held out.
    pub(crate) fn room_out(self) -> u64
        ensures { pos result ≡ room_out (figures_of self) }
    {
        (self.figures.balance + self.figures.floor as i64) as u64 - self.figures.held_out
    }

    // Holds an amount that is to come in, or none where the ceiling does not allow it.
    pub fn hold_in(self, amount: u64) -> Option<Account>
        ensures { shown result ≡ then_some (takes_in amount (figures_of self)) (hold_in amount (figures_of self)) }
    {
        if amount > self.room_in() {
            return None;
        }
        Some(Account::of(Figures {
            held_in: self.figures.held_in + amount,
            ..self.figures
        }))
    }

    // Holds an amount that is to go out, or none where the floor does not allow it.
    pub fn hold_out(self, amount: u64) -> Option<Account>
        ensures { shown result ≡ then_some (takes_out amount (figures_of self)) (hold_out amount (figures_of self)) }
    {
        if amount > self.room_out() {
            return None;
        }
        Some(Account::of(Figures {
            held_out: self.figures.held_out + amount,
            ..self.figures
        }))
    }

    // Frees an amount that is held in, and books it where it was fulfilled; none where less is held.
    pub fn end_in(self, amount: u64, fulfilled: bool) -> Option<Account>
        ensures { shown result ≡ then_some (holds_in amount (figures_of self)) (end_in fulfilled amount (figures_of self)) }
    {
        if amount > self.figures.held_in {
            return None;
        }
        Some(Account::of(Figures {
            balance: self.figures.balance + booked(amount, fulfilled),
            held_in: self.figures.held_in - amount,
            ..self.figures
        }))
    }

    // Frees an amount that is held out, and books it where it was fulfilled; none where less is held.
    pub fn end_out(self, amount: u64, fulfilled: bool) -> Option<Account>
        ensures { shown result ≡ then_some (holds_out amount (figures_of self)) (end_out fulfilled amount (figures_of self)) }
    {
        if amount > self.figures.held_out {
            return None;
        }
        Some(Account::of(Figures {
            balance: self.figures.balance - booked(amount, fulfilled),
            held_out: self.figures.held_out - amount,
            ..self.figures
        }))
    }

    // Takes an amount off the balance, or none where the floor does not allow it.
    fn lower(self, amount: u64) -> Option<Account>
        ensures { shown result ≡ then_some (can_settle 0 amount (figures_of self)) (settled 0 amount (figures_of self)) }
    {
        if amount > self.room_out() {
            return None;
        }
        Some(Account::of(Figures {
            balance: self.figures.balance - amount as i64,
            ..self.figures
        }))
    }

    // Adds an amount to the balance, or none where the ceiling does not allow it.
    fn raise(self, amount: u64) -> Option<Account>
        ensures { shown result ≡ then_some (can_settle 1 amount (figures_of self)) (settled 1 amount (figures_of self)) }
    {
        if amount > self.room_in() {
            return None;
        }
        Some(Account::of(Figures {
            balance: self.figures.balance + amount as i64,
            ..self.figures
        }))
    }

    // Books a settlement, or none where a limit does not allow it.
    pub fn settle(self, way: Way, amount: u64) -> Option<Account>
        ensures { shown result ≡ then_some (can_settle (way_number way) amount (figures_of self)) (settled (way_number way) amount (figures_of self)) }
    {
        match way {
            Way::TheyPaid => self.lower(amount),
            Way::WePaid => self.raise(amount),
        }
    }
}
