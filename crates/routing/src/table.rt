// The routes of a connector, at most 32 and no prefix twice, each to an account that is set up.
ghost use Rattle.std.specs.Prelude.{◌≡◌, true};
ghost use Rattle.routing.specs.Entries.{route_list};
ghost use Rattle.routing.specs.Routes.{routes_fit};

use crate::entry::Entry;

pub mod calls;

#[derive(Drop)]
pub struct Routes {
    entries: Vec<Entry>,
    accounts: u8,
    ghost fit: { routes_fit accounts (route_list entries.items) ≡ true },
}
