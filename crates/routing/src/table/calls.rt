// How a table is made, and what is looked up in it.
ghost use Rattle.std.specs.Prelude.{◌≡◌, ◌≤◌, length, IfOk, None};
ghost use Rattle.std.specs.List.{AllByRecursion};
ghost use Rattle.routing.specs.Entries.{given_list, route_list, best_route};
ghost use Rattle.routing.specs.Routes.{best_of, route_for, Longest, OneOfALength, Known};
ghost use Rattle.routing.specs.Tables.{listed, RoutesMade};

use super::Routes;
use crate::check::routes_fit;
use crate::entry::Entry;
use crate::refusal::NotMade;
use crate::route::Route;
use std::alloc::{AllocError, Global};

// An entry for each route, in their order.
fn copied(heap: Global, routes: &[Route<'_>]) -> Result<Vec<Entry>, AllocError>
    requires { AllByRecursion (λ r. length r.prefix ≤ 64) (given_list routes.now) }
    ensures { IfOk result (λ v. route_list v.items ≡ given_list routes.now) }
{
    let mut entries = Vec::with_capacity(heap, routes.len())?;
    for route in routes {
        entries.push_reserved(Entry::new(*route));
    }
    Ok(entries)
}

impl Routes {
    // A table that owns its routes. All is checked first, so that nothing is allocated for routes that are refused.
    pub fn new(heap: Global, accounts: u8, routes: &[Route<'_>]) -> Result<Routes, NotMade>
        ensures { RoutesMade accounts (given_list routes.now) result }
    {
        if !routes_fit(accounts, routes) {
            return Err(NotMade::Refused);
        }
        let entries = copied(heap, routes)?;
        Ok(Routes { entries, accounts })
    }

    // The entry with the longest prefix among those with which a destination begins: the first of them, where `max_by_key`
    // takes the last.
    fn best(&self, destination: &[u8]) -> Option<&Entry>
        ensures { best_route result ≡ best_of destination.now None (listed self.now) }
    {
        let mut best: Option<&Entry> = None;
        for entry in &self.entries {
            if entry.matches(destination) && entry.is_longer_than(best) {
                best = Some(entry);
            }
        }
        best
    }

    // The account that a destination is forwarded to, or none where it begins with no prefix of the table.
    pub fn find(&self, destination: &[u8]) -> Option<u8>
        ensures value { result ≡ route_for (listed self.now) destination.now }
        ensures longest { Longest (listed self.now) destination.now result }
        ensures only { OneOfALength (listed self.now) destination.now }
        ensures known { Known self.now.accounts result }
    {
        self.best(destination).map(Entry::account)
    }

    // How many routes there are.
    pub fn count(&self) -> usize
        ensures { result ≡ length (listed self.now) }
    {
        self.entries.len()
    }

    // How many accounts there are.
    pub fn accounts(&self) -> u8
        ensures { result ≡ self.now.accounts }
    {
        self.accounts
    }
}
