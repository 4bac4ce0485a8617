// The accounts of a payment connector. Every account keeps its ceiling and its floor, whatever is called.
#![tactic(auto)]

pub mod account;
pub mod figures;
pub mod hold;
pub mod limits;
pub mod table;
pub mod way;
