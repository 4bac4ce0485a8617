// SHA-256, by FIPS 180-4, of 32 bytes. With their padding these are one block, so there is one schedule and one run of the
// rounds, and nothing has to be kept from block to block.
ghost use Rattle.std.specs.Prelude.{◌≡◌};
ghost use Rattle.condition.specs.Sha256.{sha256};

use crate::interface::ConditionHash;

mod compression;
mod functions;
mod message;
mod state;

#[derive(Clone, Copy)]
pub struct Sha256;

impl ConditionHash for Sha256 {
    ghost digest_of = { sha256 };

    fn hash(&self, input: &[u8; 32]) -> [u8; 32] {
        digest(input)
    }
}

pub fn digest(input: &[u8; 32]) -> [u8; 32]
    ensures { result ≡ sha256 input.now }
{
    let schedule = message::expand(&message::pad(input));
    let last = compression::compress(&schedule);
    state::bytes(state::add(last, state::start()))
}
