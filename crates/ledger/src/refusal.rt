// Why a settlement is refused.
ghost use Rattle.std.specs.Prelude.{◌≡◌};
ghost use Rattle.ledger.specs.Settling.{refusal_number};

#[derive(Clone, Copy)]
pub enum NotSettled {
    NoAccount = 2,
    UnknownWay = 6,
    LimitWouldBreak = 7,
}

impl NotSettled {
    // The number by which the host is told.
    pub fn number(&self) -> u8
        ensures { result ≡ refusal_number self.now }
    {
        *self as u8
    }
}
