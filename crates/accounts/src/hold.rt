// An amount that is held in at the account that it comes from, and an amount that is held out at the one that it goes to.
#[derive(Clone, Copy)]
pub struct Hold {
    pub sender: u8,
    pub outgoing: u8,
    pub amount_in: u64,
    pub amount_out: u64,
}
