// Faults and codes in words, as a person is told of them.
ghost use Rattle.std.specs.Prelude.{Some};
ghost use Rattle.wire.specs.Words.{cause_words, code_words, fault_words, layer_words};

use crate::code::RejectCode;
use crate::fault::{Cause, Fault, Layer};
use std::fmt;

impl fmt::Display for Layer {
    ghost output = { λ l. Some (layer_words l) };

    fn fmt<W: fmt::Write>(&self, f: &mut fmt::Formatter<W>) -> fmt::Result {
        f.write_str(match self {
            Layer::Wrapper => "wrapper",
            Layer::Field => "field",
            Layer::Address => "address",
            Layer::Calendar => "calendar",
        })
    }
}

impl fmt::Display for Cause {
    ghost output = { λ c. Some (cause_words c) };

    fn fmt<W: fmt::Write>(&self, f: &mut fmt::Formatter<W>) -> fmt::Result {
        f.write_str(match self {
            Cause::NoBytes => "there are no bytes",
            Cause::WrongType => "the type byte is not 0C, 0D or 0E",
            Cause::BadDeterminant => "the length determinant is bad",
            Cause::CutDeterminant => "the length determinant is cut short",
            Cause::WrongLength => "the content is not as long as its determinant says",
            Cause::TooLong => "the field is longer than it may be",
            Cause::CutShort => "the field is cut short",
            Cause::BadCode => "the code is not F, T or R and two digits",
            Cause::LeftOver => "there are bytes after the last field",
            Cause::InvalidAddress => "the address is not valid",
            Cause::InvalidInstant => "the expiry is no date and time",
        })
    }
}

impl fmt::Display for Fault {
    ghost output = { λ e. Some (fault_words e) };

    fn fmt<W: fmt::Write>(&self, f: &mut fmt::Formatter<W>) -> fmt::Result {
        write!(
            f,
            "{} fault at byte {}: {}",
            self.layer, self.offset, self.cause
        )
    }
}

impl fmt::Display for RejectCode {
    ghost output = { λ c. Some (code_words c) };

    fn fmt<W: fmt::Write>(&self, f: &mut fmt::Formatter<W>) -> fmt::Result {
        f.write_str(match self {
            RejectCode::BadRequest => "bad request",
            RejectCode::InvalidPacket => "invalid packet",
            RejectCode::Unreachable => "unreachable",
            RejectCode::InvalidAmount => "invalid amount",
            RejectCode::InsufficientDestinationAmount => "insufficient destination amount",
            RejectCode::WrongCondition => "wrong condition",
            RejectCode::UnexpectedPayment => "unexpected payment",
            RejectCode::CannotReceive => "cannot receive",
            RejectCode::AmountTooLarge => "amount too large",
            RejectCode::FinalApplicationError => "application error, final",
            RejectCode::InternalError => "internal error",
            RejectCode::PeerUnreachable => "peer unreachable",
            RejectCode::PeerBusy => "peer busy",
            RejectCode::ConnectorBusy => "connector busy",
            RejectCode::InsufficientLiquidity => "insufficient liquidity",
            RejectCode::RateLimited => "rate limited",
            RejectCode::TemporaryApplicationError => "application error, temporary",
            RejectCode::TransferTimedOut => "transfer timed out",
            RejectCode::InsufficientSourceAmount => "insufficient source amount",
            RejectCode::InsufficientTimeout => "insufficient timeout",
            RejectCode::RelativeApplicationError => "application error, relative",
        })
    }
}
