// The packets of a connector's calls: our own address, and what is written into the caller's buffer.
#![tactic(auto)]

pub mod own;
pub mod writing;
