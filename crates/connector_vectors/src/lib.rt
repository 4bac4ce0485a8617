// Calls of a connector, made one after another.
#![tactic(auto)]

#[cfg(test)]
mod tests;
