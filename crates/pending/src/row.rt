// One packet that was forwarded and is not decided yet.
ghost use Rattle.std.specs.Prelude.{◌≡◌};
ghost use Rattle.pending.specs.Rows.{ends_before};

// The sender is the account that the packet came from, and `request` the sender's own number for it. The expiry is that
// of the packet as it was forwarded, an instant. `sent` says that the packet has gone out.
#[derive(Clone, Copy)]
pub struct Pending {
    pub number: u32,
    pub sender: u8,
    pub request: u32,
    pub outgoing: u8,
    pub amount_in: u64,
    pub amount_out: u64,
    pub expiry: u64,
    pub condition: [u8; 32],
    pub sent: bool,
}

// Whether a row ends before another: by its expiry, and then by its number.
pub fn ends_before(row: &Pending, other: &Pending) -> bool
    ensures { result ≡ ends_before row.now other.now }
{
    row.expiry < other.expiry || row.expiry == other.expiry && row.number < other.number
}
