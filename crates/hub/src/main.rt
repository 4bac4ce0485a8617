// The hub: reads one packet from standard input and prints a statement of it.
#![tactic(auto)]

mod passage;
mod statement;
mod words;

use crate::statement::statement;
use std::io::Read;

// One byte more than a determinant can speak of. Of a longer input these bytes tell the same fault as all of it would.
const MOST_INPUT: usize = 65_540;

fn run(rt: &HostRuntime) -> anyhow::Result<()> {
    // room for a byte more than is taken, so that the end is met without growing; what is left of it is given back
    let mut input = Vec::with_capacity(rt.alloc(), MOST_INPUT + 1)?;
    rt.stdin().take(MOST_INPUT as u64).read_to_end(&mut input)?;
    input.shrink_to_fit();
    rt.print(statement(rt.alloc(), &input)?)?;
    Ok(())
}

fn main(rt: HostRuntime) -> anyhow::Result<()> {
    run(&rt)
}
