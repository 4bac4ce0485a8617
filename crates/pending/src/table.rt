// The table of what is pending: the first `len` places are in use, and stay in the order in which they were added. They
// are an array in a plain struct, by a rule of the project: a call changes one element of it.
ghost use Rattle.std.specs.Prelude.{◌≡◌, ◌≤◌, length};

use crate::row::Pending;

pub mod calls;

#[derive(Drop)]
pub struct PendingTable {
    places: [Pending; 64],
    len: usize,
    ghost few: { len ≤ 64 },
    // the lemmas over any such value need it said
    ghost whole: { length places ≡ 64 },
}
