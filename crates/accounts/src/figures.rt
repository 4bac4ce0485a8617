// The figures of an account, as plain numbers.

// The balance is what the peer owes us, and negative where we owe. What is held in or out is not booked yet. The balance
// with what is held in is at most the ceiling, and less what is held out at least minus the floor.
#[derive(Clone, Copy)]
pub struct Figures {
    pub balance: i64,
    pub held_in: u64,
    pub held_out: u64,
    pub ceiling: u64,
    pub floor: u64,
}
