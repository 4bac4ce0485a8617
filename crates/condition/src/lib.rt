// Conditions and the fulfilments that open them: a condition is the hash of its fulfilment, and both have 32 bytes.
// The hash stands behind an interface, so that a connector runs over SHA-256 and an exercise over a hash that a reader
// works out by hand.
#![tactic(auto)]

pub mod fulfilment;
pub mod interface;
pub mod practice;
pub mod sha256;
