// What each call of a connector does, what the sheet of its calls says, and what every run of them keeps.
#![tactic(auto)]

pub mod ended;
pub mod law;
pub mod refusal;
