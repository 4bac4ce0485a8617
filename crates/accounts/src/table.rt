// The accounts that are set up, one to eight, each as plain figures that keep both limits. They are an array in a
// plain struct, by a rule of the project: an account is made of a row, and written back as one.
ghost use Rattle.std.specs.Prelude.{◌≡◌, ℕ, ◌≤◌, length, take, slice_index_or};
ghost use Rattle.accounts.specs.Figures.{Keeps, unset};

use crate::figures::Figures;

pub mod calls;

#[derive(Drop)]
pub struct Accounts {
    rows: [Figures; 8],
    count: usize,
    ghost few: { count ≤ 8 },
    ghost some: { 1 ≤ count },
    // the lemmas over any such value need it said
    ghost whole: { length rows ≡ 8 },
    ghost limits: { (i : ℕ) → Keeps (slice_index_or (take count rows) i unset) },
}
