// The connector: what it is set up with, and its calls.
#![tactic(auto)]

pub mod connector;
pub mod duty;
pub(crate) mod ending;
pub mod prepared;
pub mod set_up;
