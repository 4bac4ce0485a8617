// A part that was not made: a figure is out of bounds, or the stage below is not idle. What was passed in comes back.
ghost use Rattle.std.specs.Prelude.{◌≡◌};
ghost use Rattle.layers.specs.Makings.{set_up_number};

#[derive(Drop)]
pub struct NotMade<T> {
    pub passed_in: T,
}

impl<T> NotMade<T> {
    // The number of this refusal, the same for every part of a set-up.
    pub fn number(&self) -> u8
        ensures { result ≡ set_up_number }
    {
        8
    }
}
