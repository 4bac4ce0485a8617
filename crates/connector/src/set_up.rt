// What a connector is set up with, and what comes back where it is not made.
ghost use Rattle.std.specs.Prelude.{◌≡◌};
ghost use Rattle.routing.specs.Making.{making_number};

use accounts::limits::Limits;
use routing::refusal::NotMade;
use routing::route::Route;

// One to eight accounts by their limits, at most 32 routes, and our own address.
#[derive(Clone, Copy)]
pub struct SetUp<'a> {
    pub accounts: &'a [Limits],
    pub routes: &'a [Route<'a>],
    pub address: &'a [u8],
}

// A set-up that was refused, or for which there was no memory: the stack and the hash come back.
#[derive(Drop)]
pub struct Unmade<S, H> {
    pub why: NotMade,
    pub stages: S,
    pub hash: H,
}

impl<S, H> Unmade<S, H> {
    // 8 where the set-up is refused, 9 for want of memory.
    pub fn number(&self) -> u8
        ensures { result ≡ making_number self.now.why }
    {
        self.why.number()
    }
}
