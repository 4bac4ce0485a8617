// Parts of an operator's own host, as an example: how the duty to send a packet is spent, each time once.
#![tactic(auto)]

pub mod delivery;
pub mod link;
