// Why a table was not made.
ghost use Rattle.std.specs.Prelude.{◌≡◌};
ghost use Rattle.routing.specs.Making.{making_number};
ghost use Rattle.routing.specs.declared.refusal.NotMade.TheVariants.{NoMemory};

use std::alloc::AllocError;

#[derive(Clone, Copy)]
pub enum NotMade {
    // the routes are too many, or one is out of bounds, or a prefix stands twice
    Refused = 8,
    NoMemory = 9,
}

impl NotMade {
    // The number by which a caller is told.
    pub fn number(&self) -> u8
        ensures { result ≡ making_number self.now }
    {
        *self as u8
    }
}

impl From<AllocError> for NotMade {
    ghost from_gives = { λ _ e. e ≡ NoMemory };

    fn from(_error: AllocError) -> NotMade {
        NotMade::NoMemory
    }
}
