// How an entry is made from a route, and its parts.
ghost use Rattle.std.specs.Prelude.{◌≡◌, ◌≤◌, length};
ghost use Rattle.routing.specs.Entries.{given_route, entry_route, best_route};
ghost use Rattle.routing.specs.Routes.{begins, longer_than};

use super::Entry;
use crate::route::Route;
use wire::short::ShortBytes;

impl Entry {
    pub(crate) fn new(route: Route<'_>) -> Entry
        requires { length route.prefix.now ≤ 64 }
        ensures { entry_route result ≡ given_route route.entry }
    {
        Entry {
            prefix: ShortBytes::new(route.prefix).unwrap(),
            account: route.account,
        }
    }

    pub(crate) fn prefix(&self) -> &[u8]
        ensures { result.now ≡ (entry_route self.now).prefix }
    {
        self.prefix.as_slice()
    }

    pub(crate) fn account(&self) -> u8
        ensures { result ≡ (entry_route self.now).account }
    {
        self.account
    }

    // Whether a destination begins with the prefix.
    pub(crate) fn matches(&self, destination: &[u8]) -> bool
        ensures { result ≡ begins destination.now (entry_route self.now).prefix }
    {
        destination.starts_with(self.prefix())
    }

    // Whether the prefix is longer than that of the best entry so far, of which there may be none.
    pub(crate) fn is_longer_than(&self, best: Option<&Entry>) -> bool
        ensures { result ≡ longer_than (best_route best.entry) (entry_route self.now) }
    {
        best.is_none_or(|best| best.prefix().len() < self.prefix().len())
    }
}
