// The 21 codes with which a packet is rejected, under the names that Interledger gives them.
// F codes are final, T codes may pass on another try, R codes say that the sender's amount or time was not enough.
ghost use Rattle.std.specs.Prelude.{◌≡◌};
ghost use Rattle.wire.specs.Codes.{code_bytes, is_code, NamesCode};

#[derive(Clone, Copy, Debug, PartialEq, Eq)]
pub enum RejectCode {
    // F00 to F08, F99
    BadRequest,
    InvalidPacket,
    Unreachable,
    InvalidAmount,
    InsufficientDestinationAmount,
    WrongCondition,
    UnexpectedPayment,
    CannotReceive,
    AmountTooLarge,
    FinalApplicationError,
    // T00 to T05, T99
    InternalError,
    PeerUnreachable,
    PeerBusy,
    ConnectorBusy,
    InsufficientLiquidity,
    RateLimited,
    TemporaryApplicationError,
    // R00 to R02, R99
    TransferTimedOut,
    InsufficientSourceAmount,
    InsufficientTimeout,
    RelativeApplicationError,
}

impl RejectCode {
    // The code as it stands in a packet: its letter and two digits.
    pub fn bytes(self) -> [u8; 3]
        ensures { result ≡ code_bytes self }
    {
        match self {
            RejectCode::BadRequest => *b"F00",
            RejectCode::InvalidPacket => *b"F01",
            RejectCode::Unreachable => *b"F02",
            RejectCode::InvalidAmount => *b"F03",
            RejectCode::InsufficientDestinationAmount => *b"F04",
            RejectCode::WrongCondition => *b"F05",
            RejectCode::UnexpectedPayment => *b"F06",
            RejectCode::CannotReceive => *b"F07",
            RejectCode::AmountTooLarge => *b"F08",
            RejectCode::FinalApplicationError => *b"F99",
            RejectCode::InternalError => *b"T00",
            RejectCode::PeerUnreachable => *b"T01",
            RejectCode::PeerBusy => *b"T02",
            RejectCode::ConnectorBusy => *b"T03",
            RejectCode::InsufficientLiquidity => *b"T04",
            RejectCode::RateLimited => *b"T05",
            RejectCode::TemporaryApplicationError => *b"T99",
            RejectCode::TransferTimedOut => *b"R00",
            RejectCode::InsufficientSourceAmount => *b"R01",
            RejectCode::InsufficientTimeout => *b"R02",
            RejectCode::RelativeApplicationError => *b"R99",
        }
    }
}

// Bytes that are none of the 21 codes.
#[derive(Clone, Copy, Debug, PartialEq, Eq)]
pub struct UnknownCode;

impl TryFrom<&[u8]> for RejectCode {
    type Error = UnknownCode;

    ghost try_from_gives = { λ s r. NamesCode s.now r };

    fn try_from(bytes: &[u8]) -> Result<Self, UnknownCode> {
        match bytes {
            b"F00" => Ok(RejectCode::BadRequest),
            b"F01" => Ok(RejectCode::InvalidPacket),
            b"F02" => Ok(RejectCode::Unreachable),
            b"F03" => Ok(RejectCode::InvalidAmount),
            b"F04" => Ok(RejectCode::InsufficientDestinationAmount),
            b"F05" => Ok(RejectCode::WrongCondition),
            b"F06" => Ok(RejectCode::UnexpectedPayment),
            b"F07" => Ok(RejectCode::CannotReceive),
            b"F08" => Ok(RejectCode::AmountTooLarge),
            b"F99" => Ok(RejectCode::FinalApplicationError),
            b"T00" => Ok(RejectCode::InternalError),
            b"T01" => Ok(RejectCode::PeerUnreachable),
            b"T02" => Ok(RejectCode::PeerBusy),
            b"T03" => Ok(RejectCode::ConnectorBusy),
            b"T04" => Ok(RejectCode::InsufficientLiquidity),
            b"T05" => Ok(RejectCode::RateLimited),
            b"T99" => Ok(RejectCode::TemporaryApplicationError),
            b"R00" => Ok(RejectCode::TransferTimedOut),
            b"R01" => Ok(RejectCode::InsufficientSourceAmount),
            b"R02" => Ok(RejectCode::InsufficientTimeout),
            b"R99" => Ok(RejectCode::RelativeApplicationError),
            _ => Err(UnknownCode),
        }
    }
}

// Whether bytes are a code that may be read, one of the 21 or not: F, T or R and two digits.
pub fn is_code(bytes: &[u8]) -> bool
    ensures { result ≡ is_code bytes.now }
{
    matches!(bytes, [b'F' | b'T' | b'R', b'0'..=b'9', b'0'..=b'9'])
}
