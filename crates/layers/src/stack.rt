// The product's own stack: from the top maximum, rate, expiry, end.
ghost use Rattle.std.specs.Prelude.{◌≡◌};
ghost use Rattle.layers.specs.Stacks.{StackMade};

use crate::expiry::Expiry;
use crate::maximum::Maximum;
use crate::rate::Rate;
use crate::refusal::NotMade;
use stage::end::End;

pub type Stack = Maximum<Rate<Expiry<End>>>;

// What an operator sets: for each account its greatest amount and its price, each list for a layer of its own, and the two
// times in milliseconds.
#[derive(Clone, Copy)]
pub struct StackFigures {
    pub most: [u64; 8],
    pub prices: [u32; 8],
    pub margin: u64,
    pub hold: u64,
}

// The stack over an end with no number open.
pub fn stack(figures: StackFigures) -> Result<Stack, NotMade<StackFigures>>
    ensures { StackMade figures result }
{
    let refused = NotMade { passed_in: figures };
    let Ok(timed) = Expiry::new(figures.margin, figures.hold, End::new()) else {
        return Err(refused);
    };
    let Ok(rated) = Rate::new(figures.prices, timed) else {
        return Err(refused);
    };
    let Ok(whole) = Maximum::new(figures.most, rated) else {
        return Err(refused);
    };
    Ok(whole)
}
