// The message: its one block, and the schedule of 64 words that the rounds take.
ghost use Rattle.std.specs.Prelude.{◌≡◌, ◌<◌, ◌≤◌};
ghost use Rattle.condition.specs.Sha256.{block_word, next_word, padded, schedule, schedule_word};

use super::functions::{small_sigma0, small_sigma1};

// The 32 bytes, a bit 1, zeros, and the length in bits, 256, whose only byte that is not 0 is the one before the last.
pub(super) fn pad(input: &[u8; 32]) -> [u8; 64]
    ensures { result ≡ padded input.now }
{
    let mut block = [0; 64];
    block[0..32].copy_from_slice(input);
    block[32] = 0x80;
    block[62] = 1;
    block
}

fn block_word(block: &[u8; 64], t: usize) -> u32
    requires { t < 16 }
    ensures { result ≡ block_word block.now t }
{
    let i = 4 * t;
    u32::from_be_bytes([block[i], block[i + 1], block[i + 2], block[i + 3]])
}

fn next_word(w: &[u32; 64], t: usize) -> u32
    requires from { 16 ≤ t }
    requires below { t < 64 }
    ensures { result ≡ next_word w.now t }
{
    small_sigma1(w[t - 2])
        .wrapping_add(w[t - 7])
        .wrapping_add(small_sigma0(w[t - 15]))
        .wrapping_add(w[t - 16])
}

// The word `t` of the schedule, where `w` has those before it.
fn schedule_word(block: &[u8; 64], w: &[u32; 64], t: usize) -> u32
    requires { t < 64 }
    ensures { result ≡ schedule_word block.now w.now t }
{
    if t < 16 {
        block_word(block, t)
    } else {
        next_word(w, t)
    }
}

// A word is made of those before it, so each is written at its place while the array is read.
pub(super) fn expand(block: &[u8; 64]) -> [u32; 64]
    ensures { result ≡ schedule block.now 64 }
{
    let mut w = [0; 64];
    for t in 0..64 {
        w[t] = schedule_word(block, &w, t);
    }
    w
}
