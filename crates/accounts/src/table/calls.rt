// How accounts are set up, read and booked. A call that refuses leaves the whole table as it was.
ghost use Rattle.std.specs.Prelude.{◌≡◌, ℕ, ◌<◌, true, false, length, is_some, if◌then◌else◌, slice_index_or, slice_set};
ghost use Rattle.std.specs.Bool.{then_some};
ghost use Rattle.accounts.specs.Figures.{Keeps, unset, adjust, is_set_up, two_set_up, can_hold_in, can_hold_out, can_hold, held, can_end, ended, settled_balance, settled, can_settle_at};
ghost use Rattle.accounts.specs.Changes.{ChangesBoth};
ghost use Rattle.accounts.specs.SetUps.{set_up_fits, new_accounts};
ghost use Rattle.accounts.specs.Views.{figures_of, figures_list, table_shown};
ghost use Rattle.accounts.specs.Ways.{way_number};

use super::Accounts;
use crate::account::Account;
use crate::figures::Figures;
use crate::hold::Hold;
use crate::limits::Limits;
use crate::way::Way;

pub const MOST_ACCOUNTS: usize = 8;

// What a place holds that no account has.
const UNSET: Figures = Figures {
    balance: 0,
    held_in: 0,
    held_out: 0,
    ceiling: 0,
    floor: 0,
};

impl Accounts {
    // Accounts with these limits and nothing booked: one to eight of them, or none where a limit is out of bounds.
    pub fn new(limits: &[Limits]) -> Option<Accounts>
        ensures { table_shown result ≡ then_some (set_up_fits limits.now) (new_accounts limits.now) }
    {
        let count = limits.len();
        if count < 1 || count > MOST_ACCOUNTS {
            return None;
        }
        let mut rows = [UNSET; MOST_ACCOUNTS];
        // by index: of what is written through `iter_mut` a proof knows the length alone
        for (i, limit) in limits.iter().enumerate() {
            rows[i] = Account::new(limit.ceiling, limit.floor)?.figures();
        }
        Some(Accounts { rows, count })
    }

    pub fn count(&self) -> usize
        ensures { result ≡ length (figures_list self.now) }
    {
        self.count
    }

    pub fn has(&self, account: u8) -> bool
        ensures { result ≡ is_set_up (figures_list self.now) account }
    {
        (account as usize) < self.count
    }

    // The figures of an account that is set up. Both limits hold for every account, at all times.
    pub fn figures(&self, account: u8) -> Option<Figures>
        ensures value { result ≡ then_some (is_set_up (figures_list self.now) account) (slice_index_or (figures_list self.now) account unset) }
        ensures kept { (a : ℕ) → Keeps (slice_index_or (figures_list self.now) a unset) }
    {
        self.rows[..self.count].get(account as usize).copied()
    }

    // An account that is set up, as a value of its own.
    fn at(&self, account: u8) -> Account
        requires { account < length (figures_list self.now) }
        ensures { figures_of result ≡ slice_index_or (figures_list self.now) account unset }
    {
        Account::of(self.rows[account as usize])
    }

    // Writes such a value back, whole.
    fn put(&mut self, account: u8, value: Account)
        requires { account < length (figures_list self.old) }
        ensures { figures_list self.new ≡ slice_set (figures_list self.old) account (figures_of value) }
    {
        self.rows[account as usize] = value.figures();
    }

    // Whether the account is set up and its ceiling allows that the amount is held in.
    pub fn can_hold_in(&self, account: u8, amount: u64) -> bool
        ensures { result ≡ can_hold_in (figures_list self.now) account amount }
    {
        self.has(account) && amount <= self.at(account).room_in()
    }

    // Whether the account is set up and its floor allows that the amount is held out.
    pub fn can_hold_out(&self, account: u8, amount: u64) -> bool
        ensures { result ≡ can_hold_out (figures_list self.now) account amount }
    {
        self.has(account) && amount <= self.at(account).room_out()
    }

    // Whether the two accounts of a hold are set up and differ.
    fn has_two(&self, hold: Hold) -> bool
        ensures { result ≡ two_set_up (figures_list self.now) hold }
    {
        self.has(hold.sender) && self.has(hold.outgoing) && hold.sender != hold.outgoing
    }

    // Changes the two accounts of a hold, or none of them: where they are set up and differ, and each change gives one.
    fn change<I: FnOnce(Account) -> Option<Account>, O: FnOnce(Account) -> Option<Account>>(
        &mut self,
        hold: Hold,
        change_in: I,
        change_out: O,
    ) -> Option<()>
        requires incoming { I.IsAlwaysCallable change_in }
        requires outgoing { O.IsAlwaysCallable change_out }
        ensures changed { ChangesBoth (I.post change_in) (O.post change_out) hold (figures_list self.old) (is_some result) (figures_list self.new) }
        ensures unchanged { is_some result ≡ false → self.new ≡ self.old }
    {
        if !self.has_two(hold) {
            return None;
        }
        let sender = change_in(self.at(hold.sender))?;
        let outgoing = change_out(self.at(hold.outgoing))?;
        self.put(hold.sender, sender);
        self.put(hold.outgoing, outgoing);
        Some(())
    }

    // Holds both amounts, or none of them.
    pub fn hold(&mut self, hold: Hold) -> bool
        ensures answer { result ≡ can_hold (figures_list self.old) hold }
        ensures figures { figures_list self.new ≡ (if result then held hold (figures_list self.old) else figures_list self.old) }
        ensures unchanged { result ≡ false → self.new ≡ self.old }
    {
        self.change(
            hold,
            |sender| sender.hold_in(hold.amount_in),
            |outgoing| outgoing.hold_out(hold.amount_out),
        )
        .is_some()
    }

    // Ends a hold: frees both amounts, and books them where it was fulfilled. Nothing is done where less is held.
    pub fn end(&mut self, hold: Hold, fulfilled: bool) -> bool
        ensures answer { result ≡ can_end (figures_list self.old) hold }
        ensures figures { figures_list self.new ≡ (if result then ended fulfilled hold (figures_list self.old) else figures_list self.old) }
        ensures unchanged { result ≡ false → self.new ≡ self.old }
    {
        self.change(
            hold,
            |sender| sender.end_in(hold.amount_in, fulfilled),
            |outgoing| outgoing.end_out(hold.amount_out, fulfilled),
        )
        .is_some()
    }

    // Books a settlement and gives the new balance, or none where the account is not set up or a limit does not allow it.
    pub fn settle(&mut self, account: u8, way: Way, amount: u64) -> Option<i64>
        ensures answer { result ≡ then_some (can_settle_at (figures_list self.old) account (way_number way) amount) (settled_balance (way_number way) amount (slice_index_or (figures_list self.old) account unset)) }
        ensures figures { figures_list self.new ≡ (if is_some result then adjust account (settled (way_number way) amount) (figures_list self.old) else figures_list self.old) }
        ensures unchanged { is_some result ≡ false → self.new ≡ self.old }
    {
        if !self.has(account) {
            return None;
        }
        let after = self.at(account).settle(way, amount)?;
        self.put(account, after);
        Some(after.figures().balance)
    }
}
