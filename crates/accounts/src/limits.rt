// The two limits of an account: what the peer may owe us at most, and what we may owe the peer at most.
#[derive(Clone, Copy)]
pub struct Limits {
    pub ceiling: u64,
    pub floor: u64,
}
