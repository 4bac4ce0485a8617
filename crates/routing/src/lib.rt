// The route table of a connector: the account that a destination is forwarded to, by the longest prefix.
#![tactic(auto)]

mod check;
mod entry;
pub mod refusal;
pub mod route;
pub mod table;
