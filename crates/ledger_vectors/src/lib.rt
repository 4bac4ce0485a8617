// Tables of cases for the ledger and the routes.
#![tactic(auto)]

#[cfg(test)]
mod tests;
