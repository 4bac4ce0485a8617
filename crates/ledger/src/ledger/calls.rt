// The calls of the ledger. A call that refuses leaves the whole ledger as it was.
ghost use Rattle.std.specs.Prelude.{◌≡◌, ℕ, ◌+◌, is_some, is_ok, if◌then◌else◌};
ghost use Rattle.std.specs.Bool.{then_some};
ghost use Rattle.accounts.specs.Figures.{Keeps, is_set_up, can_hold_in, can_hold_out};
ghost use Rattle.accounts.specs.SetUps.{set_up_fits};
ghost use Rattle.pending.specs.Rows.{lookup, is_pending, due};
ghost use Rattle.pending.specs.Tables.{is_full};
ghost use Rattle.ledger.specs.Books.{figures_at, new_books, advanced, has_number, next_row, can_reserve, admitted, marked_at, closed_if};
ghost use Rattle.ledger.specs.Settling.{settlement, settled_books};
ghost use Rattle.ledger.specs.Sums.{sum_in, sum_out};
ghost use Rattle.ledger.specs.Views.{view, shown_books, SameUnless};

use super::Ledger;
use crate::refusal::NotSettled;
use crate::reservation::{Reservation, hold_of};
use accounts::figures::Figures;
use accounts::limits::Limits;
use accounts::table::Accounts;
use accounts::way::Way;
use pending::row::Pending;
use pending::table::PendingTable;

impl Ledger {
    // A new ledger with these accounts: one to eight, and none where a limit is out of bounds.
    pub fn new(limits: &[Limits]) -> Option<Ledger>
        ensures { shown_books result ≡ then_some (set_up_fits limits.now) (new_books limits.now) }
    {
        let accounts = Accounts::new(limits)?;
        Some(Ledger {
            time: 0,
            last: 0,
            accounts,
            pending: PendingTable::new(),
        })
    }

    // The greatest time so far.
    pub fn time(&self) -> u64
        ensures { result ≡ (view self.now).time }
    {
        self.time
    }

    // Advances the time to a later one; an earlier one changes nothing.
    pub fn advance(&mut self, time: u64)
        ensures { view self.new ≡ advanced time (view self.old) }
    {
        self.time = self.time.max(time);
    }

    // The number that the next row gets; none where the last one has been given.
    pub fn next_number(&self) -> Option<u32>
        ensures { result ≡ then_some (has_number (view self.now)) ((view self.now).last + 1) }
    {
        self.last.checked_add(1)
    }

    // Whether 64 are pending.
    pub fn is_full(&self) -> bool
        ensures { result ≡ is_full (view self.now).rows }
    {
        self.pending.is_full()
    }

    pub fn has_account(&self, account: u8) -> bool
        ensures { result ≡ is_set_up (view self.now).accounts account }
    {
        self.accounts.has(account)
    }

    // The figures of an account, and what the type says of every account: both limits hold, and the held sums are the sums
    // over what is pending.
    pub fn figures(&self, account: u8) -> Option<Figures>
        ensures value { result ≡ then_some (is_set_up (view self.now).accounts account) (figures_at (view self.now) account) }
        ensures limits { (a : ℕ) → Keeps (figures_at (view self.now) a) }
        ensures incoming { (a : ℕ) → (figures_at (view self.now) a).held_in ≡ sum_in a (view self.now).rows }
        ensures outgoing { (a : ℕ) → (figures_at (view self.now) a).held_out ≡ sum_out a (view self.now).rows }
    {
        self.accounts.figures(account)
    }

    // Whether an account that is set up can hold so much more in.
    pub fn can_hold_in(&self, account: u8, amount: u64) -> bool
        ensures { result ≡ can_hold_in (view self.now).accounts account amount }
    {
        self.accounts.can_hold_in(account, amount)
    }

    // Whether an account that is set up can hold so much more out.
    pub fn can_hold_out(&self, account: u8, amount: u64) -> bool
        ensures { result ≡ can_hold_out (view self.now).accounts account amount }
    {
        self.accounts.can_hold_out(account, amount)
    }

    // Holds both amounts and adds a row under the next number, or changes nothing.
    pub fn reserve(&mut self, reservation: Reservation) -> Option<u32>
        ensures value { result ≡ then_some (can_reserve (view self.old) reservation) ((view self.old).last + 1) }
        ensures books { view self.new ≡ (if is_some result then admitted (next_row (view self.old) reservation) (view self.old) else view self.old) }
        ensures unchanged { SameUnless (is_some result) self.old self.new }
    {
        let number = self.next_number()?;
        if self.is_full() {
            return None;
        }
        if !self.accounts.hold(reservation.hold) {
            return None;
        }
        self.pending.add(reservation.row(number));
        self.last = number;
        Some(number)
    }

    // Marks the row of a number as sent, and touches no other.
    pub fn mark(&mut self, number: u32) -> bool
        ensures value { result ≡ is_pending number (view self.old).rows }
        ensures books { view self.new ≡ marked_at number (view self.old) }
        ensures unchanged { SameUnless result self.old self.new }
    {
        self.pending.mark(number)
    }

    pub fn lookup(&self, number: u32) -> Option<Pending>
        ensures { result ≡ lookup number (view self.now).rows }
    {
        self.pending.lookup(number)
    }

    // The row with the smallest expiry, the lowest number on ties, where that expiry has been reached.
    pub fn first_expired(&self) -> Option<Pending>
        ensures { result ≡ due (view self.now).time (view self.now).rows }
    {
        let place = self.pending.first_expired(self.time)?;
        self.pending.at(place)
    }

    // Ends the row of a number: it is removed and both its amounts are freed, and booked where it was fulfilled.
    pub fn end(&mut self, number: u32, fulfilled: bool) -> Option<Pending>
        ensures value { result ≡ lookup number (view self.old).rows }
        ensures books { view self.new ≡ closed_if fulfilled result (view self.old) }
        ensures unchanged { SameUnless (is_some result) self.old self.new }
    {
        let row = self.lookup(number)?;
        // what a row says is held, so this is never refused
        if !self.accounts.end(hold_of(&row), fulfilled) {
            return None;
        }
        self.pending.remove(number);
        Some(row)
    }

    // Books a settlement: the way 0, they paid us, lowers the balance, and 1, we paid them, raises it. The host says the
    // way by its number, and is told of one that there is not.
    pub fn settle(&mut self, account: u8, way: u8, amount: u64) -> Result<i64, NotSettled>
        ensures value { result ≡ settlement (view self.old) account way amount }
        ensures books { view self.new ≡ settled_books result account (view self.old) }
        ensures unchanged { SameUnless (is_ok result) self.old self.new }
    {
        if !self.has_account(account) {
            return Err(NotSettled::NoAccount);
        }
        let way = Way::try_from(way).map_err(|_| NotSettled::UnknownWay)?;
        self.accounts
            .settle(account, way, amount)
            .ok_or(NotSettled::LimitWouldBreak)
    }
}
