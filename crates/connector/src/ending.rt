// How a pending packet ends.
use wire::code::RejectCode;

// By the peer's Fulfill, by the peer's Reject, or by a Reject of our own.
#[derive(Clone, Copy)]
pub enum Ending {
    Paid,
    PassedOn,
    Ours(RejectCode),
}
