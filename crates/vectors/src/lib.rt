// Figures and examples: what the rules give at their edges, proved, and packets written down by hand, tested.
#![tactic(auto)]

ghost use Rattle.std.specs.Prelude.{◌≡◌};
ghost use Rattle.vectors.specs.Figures.{EdgeFigures};

#[cfg(test)]
mod tests;

// The lines of EdgeFigures.
const FIGURES: usize = 21;

// How many edge figures there are. That each holds is proved, and stated here.
pub fn edge_figures() -> usize
    ensures figures { EdgeFigures }
    ensures count { result ≡ 21 }
{
    FIGURES
}
