// Whether routes may make a table.
ghost use Rattle.std.specs.Prelude.{◌≡◌};
ghost use Rattle.routing.specs.Entries.{given_route, given_list};
ghost use Rattle.routing.specs.Routes.{route_fits, each_fits, has_prefix, no_prefix_twice, routes_fit};

use crate::entry::LONGEST;
use crate::route::Route;
use address::check::is_prefix;
use wire::compare::same_bytes;

// The most routes of a table.
const MOST: usize = 32;

fn route_fits(accounts: u8, route: Route<'_>) -> bool
    ensures { result ≡ route_fits accounts (given_route route.entry) }
{
    route.prefix.len() <= LONGEST && is_prefix(route.prefix) && route.account < accounts
}

fn each_fits(accounts: u8, routes: &[Route<'_>]) -> bool
    ensures { result ≡ each_fits accounts (given_list routes.now) }
{
    routes.iter().all(|route| route_fits(accounts, *route))
}

fn has_prefix(routes: &[Route<'_>], prefix: &[u8]) -> bool
    ensures { result ≡ has_prefix (given_list routes.now) prefix.now }
{
    routes.iter().any(|route| same_bytes(route.prefix, prefix))
}

// Each prefix is looked for among the routes behind it, which a chain over the routes alone does not have.
fn no_prefix_twice(routes: &[Route<'_>]) -> bool
    ensures { result ≡ no_prefix_twice (given_list routes.now) }
{
    for (i, route) in routes.iter().enumerate() {
        if has_prefix(&routes[i + 1..], route.prefix) {
            return false;
        }
    }
    true
}

pub(crate) fn routes_fit(accounts: u8, routes: &[Route<'_>]) -> bool
    ensures { result ≡ routes_fit accounts (given_list routes.now) }
{
    routes.len() <= MOST && each_fits(accounts, routes) && no_prefix_twice(routes)
}
