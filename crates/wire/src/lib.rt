// What every layer of a packet shares: how a fault is told, the reject codes, reading a lent packet from front to
// back, and writing into a buffer that the caller lends.
#![tactic(auto)]

pub mod code;
pub mod compare;
pub mod fault;
pub mod reader;
pub mod short;
mod words;
pub mod writer;
pub mod writing;
