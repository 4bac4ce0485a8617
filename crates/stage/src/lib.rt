// Stages: what stands between a transfer and its being forwarded, behind one interface. The end of every stack is here,
// and what holds of every stage; the layers that stand on one another are a crate of their own.
#![tactic(auto)]

pub mod accounts;
pub mod change;
pub mod end;
pub mod interface;
pub mod numbers;
pub mod run;
pub mod transfer;
