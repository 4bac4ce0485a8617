// The law of every run, for every stage and every hash.
ghost use Rattle.protocol.specs.Runs.{EveryRun};

use condition::interface::ConditionHash;
use stage::interface::Stage;

// Whatever is called, in whatever order and at whatever times, and whatever peers answer: after every call of a run from a
// new connector the records match the sheet, each forwarded packet is pending until its decisive call, the balances match
// the sheet, and a fulfilment needs the secret in time.
pub fn every_run_keeps_the_books<S: Stage, H: ConditionHash>()
    ensures { EveryRun S.Stage.held S.Stage.rule H.ConditionHash.digest_of }
{}
