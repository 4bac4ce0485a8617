// The two ways of a settlement.
ghost use Rattle.accounts.specs.Ways.{IsWayOf};

// A payment of theirs lowers what they owe us, and one of ours raises it.
#[derive(Clone, Copy)]
pub enum Way {
    TheyPaid,
    WePaid,
}

// A number that no way has.
#[derive(Clone, Copy, Debug, PartialEq, Eq)]
pub struct UnknownWay;

// 0 is TheyPaid, and 1 is WePaid.
impl TryFrom<u8> for Way {
    type Error = UnknownWay;

    ghost try_from_gives = { IsWayOf };

    fn try_from(number: u8) -> Result<Way, UnknownWay> {
        match number {
            0 => Ok(Way::TheyPaid),
            1 => Ok(Way::WePaid),
            _ => Err(UnknownWay),
        }
    }
}
