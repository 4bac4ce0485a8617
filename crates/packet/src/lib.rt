// The packets of Interledger: Prepare, Fulfill and Reject, read from lent bytes and written into a lent buffer.
#![tactic(auto)]

mod content;
mod fields;
pub mod kind;
pub mod reading;
pub mod value;
