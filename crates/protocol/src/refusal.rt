// Why a call is refused. A refused call changes nothing and writes nothing.
ghost use Rattle.std.specs.Prelude.{◌≡◌};
ghost use Rattle.protocol.specs.Refusals.{refusal_number};
ghost use Rattle.protocol.specs.declared.refusal.Refusal.TheVariants.{UnreadableAnswer};

use wire::fault::Fault;

#[derive(Clone, Copy)]
pub enum Refusal {
    // The buffer is shorter than the longest packet.
    ShortBuffer,
    // The account is not set up.
    NoAccount,
    // The time is after the last instant.
    TimeOutOfRange,
    // No such packet is pending, or it is not the caller's to answer, or it was not sent, or it was sent already.
    NotPending,
    // The bytes are no Fulfill and no Reject.
    UnreadableAnswer(Fault),
    // The way of a settlement is neither 0 nor 1.
    UnknownWay,
    // A limit of the account would break.
    LimitWouldBreak,
    // A part of the set-up is out of bounds, so nothing was made.
    SetUp,
}

impl Refusal {
    // The number by which the host is told. By a match, since one of the refusals carries a fault.
    pub fn number(&self) -> u8
        ensures { result ≡ refusal_number self.now }
    {
        match self {
            Refusal::ShortBuffer => 1,
            Refusal::NoAccount => 2,
            Refusal::TimeOutOfRange => 3,
            Refusal::NotPending => 4,
            Refusal::UnreadableAnswer(_) => 5,
            Refusal::UnknownWay => 6,
            Refusal::LimitWouldBreak => 7,
            Refusal::SetUp => 8,
        }
    }
}

impl From<Fault> for Refusal {
    // Bytes with a fault are no answer.
    ghost from_gives = { λ fault refusal. refusal ≡ UnreadableAnswer fault };

    fn from(fault: Fault) -> Refusal {
        Refusal::UnreadableAnswer(fault)
    }
}
