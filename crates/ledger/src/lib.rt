// The ledger of a connector: its time, the last number given, its accounts, and the packets that wait for their decision.
#![tactic(auto)]

pub mod ledger;
pub mod refusal;
pub mod reservation;
