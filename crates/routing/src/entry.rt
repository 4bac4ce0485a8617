// One route of a table, which owns its bytes.
use wire::short::ShortBytes;

pub mod calls;

// The most bytes of a prefix.
pub(crate) const LONGEST: usize = 64;

#[derive(Clone, Copy)]
pub struct Entry {
    prefix: ShortBytes<LONGEST>,
    account: u8,
}
