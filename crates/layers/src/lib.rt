// The layers of a stack: each makes a check of its own and hands the transfer, changed or not, to the stage below it,
// which it holds by value. So any stack of them over any stage is a stage again.
#![tactic(auto)]

pub mod expiry;
pub mod layer;
pub mod maximum;
pub mod over;
pub mod prices;
pub mod rate;
pub mod refusal;
pub mod stack;
