// Lists of takes and closes, executed on any stage.
ghost use Rattle.std.specs.Prelude.{◌≡◌, IfOk, MatchResult};
ghost use Rattle.stage.specs.Runs.{Step, Run, open_since, RunsKeepTheNumbers};

use crate::change::Change;
use crate::interface::Stage;
use crate::transfer::Verdict;
use std::alloc::{AllocError, Global};

// One change, and for a take the verdict.
pub fn apply<S: Stage>(stage: &mut S, change: Change) -> Option<Verdict>
    ensures { Step S.Stage.held S.Stage.rule stage.old change result stage.new }
{
    match change {
        Change::Take(transfer) => {
            let verdict = stage.look(transfer);
            stage.take(transfer);
            Some(verdict)
        }
        Change::Close(number) => {
            stage.close(number);
            None
        }
    }
}

// All the changes in order, with an answer for each. The memory for the answers is got first, so that for want of it
// nothing is done at all. After every run the open numbers are those taken and not closed since, in order.
pub fn execute<S: Stage>(
    heap: Global,
    stage: &mut S,
    changes: &[Change],
) -> Result<Vec<Option<Verdict>>, AllocError>
    ensures run { MatchResult result (λ v. Run S.Stage.held S.Stage.rule stage.old changes.now v.items stage.new) (λ _. stage.new ≡ stage.old) }
    ensures numbers { IfOk result (λ v. S.Stage.held stage.new ≡ open_since (S.Stage.held stage.old) changes.now v.items) }
    ensures every_run { RunsKeepTheNumbers S.Stage.held S.Stage.rule }
{
    let mut answers = Vec::with_capacity(heap, changes.len())?;
    for change in changes {
        answers.push_reserved(apply(stage, *change));
    }
    Ok(answers)
}
