// A connector over any stack of stages and any hash.
use condition::interface::ConditionHash;
use ledger::ledger::Ledger;
use messages::own::OwnAddress;
use routing::table::Routes;
use stage::interface::Stage;

pub mod answers;
mod checks;
pub mod ends;
pub mod making;
pub mod marks;
pub mod prepares;

#[derive(Drop)]
pub struct Connector<S: Stage, H: ConditionHash> {
    pub(crate) ledger: Ledger,
    pub(crate) routes: Routes,
    pub(crate) own: OwnAddress,
    pub(crate) stages: S,
    pub(crate) hash: H,
}
