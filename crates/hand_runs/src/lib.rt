// Runs written down by hand, and what the definitions of the calls and of the sheet make of them.
#![tactic(auto)]

ghost use Rattle.std.specs.Prelude.{◌≡◌};
ghost use Rattle.hand_runs.specs.HandRuns.{HandWrittenRuns};

// The lines of HandWrittenRuns.
const RUNS: usize = 14;

// How many runs there are. That each turns out as it is written down is proved, and stated here.
pub fn hand_written_runs() -> usize
    ensures runs { HandWrittenRuns }
    ensures count { result ≡ 14 }
{
    RUNS
}
