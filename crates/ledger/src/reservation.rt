// What is reserved for a packet that is forwarded.
ghost use Rattle.std.specs.Prelude.{◌≡◌};
ghost use Rattle.ledger.specs.Books.{hold_of, row_of};

use accounts::hold::Hold;
use pending::row::Pending;

// The amounts and their accounts, the sender's own number for the packet, the expiry with which it goes out, an instant,
// and its condition.
#[derive(Clone, Copy)]
pub struct Reservation {
    pub hold: Hold,
    pub request: u32,
    pub expiry: u64,
    pub condition: [u8; 32],
}

impl Reservation {
    // The row under a number, not sent yet.
    pub fn row(&self, number: u32) -> Pending
        ensures { result ≡ row_of number self.now }
    {
        Pending {
            number,
            sender: self.hold.sender,
            request: self.request,
            outgoing: self.hold.outgoing,
            amount_in: self.hold.amount_in,
            amount_out: self.hold.amount_out,
            expiry: self.expiry,
            condition: self.condition,
            sent: false,
        }
    }
}

// What a row holds at its two accounts. A function, since `From` of two types of other crates cannot stand here; and a row
// has no hold in it, since what is pending knows no accounts.
pub fn hold_of(row: &Pending) -> Hold
    ensures { result ≡ hold_of row.now }
{
    Hold {
        sender: row.sender,
        outgoing: row.outgoing,
        amount_in: row.amount_in,
        amount_out: row.amount_out,
    }
}
