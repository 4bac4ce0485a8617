// What a Prepare comes to.
use crate::duty::SendDuty;
use protocol::ended::Rejected;
use stage::transfer::{Passed, Transfer};

// The packet's number, the account that it goes to, how many bytes of the buffer it is, and the duty to send it.
pub struct Forwarded {
    pub number: u32,
    pub account: u8,
    pub length: usize,
    pub duty: SendDuty,
}

// Forwarded, or rejected: then the buffer has the answer to the sender. No Result of its own, since that answer is no
// error: what a call refuses is.
pub enum Prepared {
    Forwarded(Forwarded),
    Rejected(Rejected),
}

// A transfer that is to be forwarded, and the form in which the stack passes it.
#[derive(Clone, Copy)]
pub(crate) struct Onward {
    pub transfer: Transfer,
    pub passed: Passed,
}
