// Interledger addresses and the prefixes of routes: a scheme, and then segments, with a dot before each.
#![tactic(auto)]

pub mod check;
pub mod value;
