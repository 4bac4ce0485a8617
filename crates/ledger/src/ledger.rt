// The ledger, and what every value of it keeps.
ghost use Rattle.ledger.specs.Books.{Sound};
ghost use Rattle.ledger.specs.Parts.{books};

use accounts::table::Accounts;
use pending::table::PendingTable;

pub mod calls;

// Each account's held sums are the sums over what is pending; the numbers of what is pending rise, and none is above the
// last that was given; and the two accounts of each row are set up and differ.
#[derive(Drop)]
pub struct Ledger {
    time: u64,
    last: u32,
    accounts: Accounts,
    pending: PendingTable,
    ghost sound: { Sound (books time last accounts pending) },
}
