// The packets that were forwarded and wait for their decision: a table of at most 64, in the order of their numbers.
#![tactic(auto)]

pub mod row;
pub mod table;
