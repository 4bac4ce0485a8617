// What the host is told when a packet has come to its end.
use wire::fault::Fault;

// The account and its own number of the request that is answered, and how many bytes of the buffer are the answer.
#[derive(Clone, Copy)]
pub struct Ended {
    pub sender: u8,
    pub request: u32,
    pub length: usize,
}

// A Prepare that was not forwarded. Where its bytes could not be read, the fault says why.
#[derive(Clone, Copy)]
pub struct Rejected {
    pub ended: Ended,
    pub fault: Option<Fault>,
}
