// The 21 reject codes, and which bytes are a code.
use wire::code::{RejectCode, is_code};

const CODES: [(RejectCode, &'static [u8]); 21] = [
    (RejectCode::BadRequest, b"F00"),
    (RejectCode::InvalidPacket, b"F01"),
    (RejectCode::Unreachable, b"F02"),
    (RejectCode::InvalidAmount, b"F03"),
    (RejectCode::InsufficientDestinationAmount, b"F04"),
    (RejectCode::WrongCondition, b"F05"),
    (RejectCode::UnexpectedPayment, b"F06"),
    (RejectCode::CannotReceive, b"F07"),
    (RejectCode::AmountTooLarge, b"F08"),
    (RejectCode::FinalApplicationError, b"F99"),
    (RejectCode::InternalError, b"T00"),
    (RejectCode::PeerUnreachable, b"T01"),
    (RejectCode::PeerBusy, b"T02"),
    (RejectCode::ConnectorBusy, b"T03"),
    (RejectCode::InsufficientLiquidity, b"T04"),
    (RejectCode::RateLimited, b"T05"),
    (RejectCode::TemporaryApplicationError, b"T99"),
    (RejectCode::TransferTimedOut, b"R00"),
    (RejectCode::InsufficientSourceAmount, b"R01"),
    (RejectCode::InsufficientTimeout, b"R02"),
    (RejectCode::RelativeApplicationError, b"R99"),
];

#[test]
fn the_bytes_of_each_code(rt: HostRuntime) {
    for (i, (code, bytes)) in CODES.iter().enumerate() {
        assert_eq!(rt; code.bytes().as_slice(), *bytes, "{i}");
        assert_eq!(rt; RejectCode::try_from(*bytes).ok(), Some(*code), "{i}");
        assert!(rt; is_code(bytes), "{i}");
    }
}

const NO_CODES: [&'static [u8]; 9] = [
    b"", b"F0", b"F000", b"G00", b"f00", b"F0a", b"F 0", b"000", b"F0\x00",
];

#[test]
fn bytes_that_are_a_code_or_none(rt: HostRuntime) {
    assert!(rt; is_code(b"F47") && is_code(b"T50") && is_code(b"R09"));
    for (i, bytes) in NO_CODES.iter().enumerate() {
        assert!(rt;
            !is_code(bytes) && RejectCode::try_from(*bytes).is_err(),
            "{i}"
        );
    }
}
