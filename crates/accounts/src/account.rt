// An account that keeps both of its limits, by its type.
ghost use Rattle.accounts.specs.Figures.{Keeps};

use crate::figures::Figures;

pub mod calls;

#[derive(Clone, Copy)]
pub struct Account {
    figures: Figures,
    ghost kept: { Keeps figures },
}
