// How a connector is made.
ghost use Rattle.connector.specs.Makings.{Made, PartsMade};

use super::Connector;
use crate::set_up::{SetUp, Unmade};
use condition::interface::ConditionHash;
use ledger::ledger::Ledger;
use messages::own::OwnAddress;
use routing::refusal::NotMade;
use routing::table::Routes;
use stage::interface::Stage;
use std::alloc::Global;

impl<S: Stage, H: ConditionHash> Connector<S, H> {
    // A new connector, or what was passed in where the set-up is refused or there is no memory for the routes.
    pub fn new(
        heap: Global,
        set_up: SetUp<'_>,
        stages: S,
        hash: H,
    ) -> Result<Connector<S, H>, Unmade<S, H>>
        ensures { Made S.held set_up.entry stages hash result }
    {
        if !stages.idle() {
            let why = NotMade::Refused;
            return Err(Unmade { why, stages, hash });
        }
        match parts(heap, set_up) {
            Err(why) => Err(Unmade { why, stages, hash }),
            Ok((ledger, routes, own)) => Ok(Connector {
                ledger,
                routes,
                own,
                stages,
                hash,
            }),
        }
    }
}

// What a connector has beside its stack and its hash.
fn parts(heap: Global, set_up: SetUp<'_>) -> Result<(Ledger, Routes, OwnAddress), NotMade>
    ensures { PartsMade set_up.entry result }
{
    let ledger = Ledger::new(set_up.accounts).ok_or(NotMade::Refused)?;
    let own = OwnAddress::new(set_up.address).ok_or(NotMade::Refused)?;
    let routes = Routes::new(heap, set_up.accounts.len() as u8, set_up.routes)?;
    Ok((ledger, routes, own))
}
