// What may be done to a stage: two things to do, neither of them a failure or an absence.
use crate::transfer::Transfer;

#[derive(Clone, Copy)]
pub enum Change {
    Take(Transfer),
    Close(u32),
}
