// What is tested: accounts at both limits and one over, the table of what is pending, the ledger's calls, and routes.
mod account_limits;
mod ledger_calls;
mod pending_rows;
mod routes;
mod support;
