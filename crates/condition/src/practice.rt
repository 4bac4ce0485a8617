// A hash for tests and exercises: a reader can work it out by hand, and anyone can turn it round, so it guards nothing.
ghost use Rattle.condition.specs.Practice.{practice};

use crate::interface::ConditionHash;
use std::array;

// The bits of each byte that are inverted.
const INVERTED: u8 = 0x5a;

#[derive(Clone, Copy)]
pub struct Practice;

impl ConditionHash for Practice {
    ghost digest_of = { practice };

    fn hash(&self, input: &[u8; 32]) -> [u8; 32] {
        array::from_fn(|i| input[31 - i] ^ INVERTED)
    }
}
