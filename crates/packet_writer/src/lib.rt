// Packets written into a buffer that the caller lends.
#![tactic(auto)]

pub mod encode;
mod packets;
pub mod unwritten;
pub mod writing;
