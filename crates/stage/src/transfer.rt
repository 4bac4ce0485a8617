// What is put to a stage, and what it answers.
ghost use Rattle.std.specs.Prelude.{◌≡◌};
ghost use Rattle.stage.specs.Verdicts.{plainly};

use crate::accounts::AccountPair;
use wire::code::RejectCode;

// A transfer on its way: the number under which it would be forwarded, its accounts, what comes in, when it expires, and
// the connector's time. Expiry and time are instants.
#[derive(Clone, Copy)]
pub struct Transfer {
    pub number: u32,
    pub accounts: AccountPair,
    pub amount: u64,
    pub expiry: u64,
    pub time: u64,
}

// What goes out for a transfer that passes.
#[derive(Clone, Copy, Debug, PartialEq, Eq)]
pub struct Passed {
    pub amount: u64,
    pub expiry: u64,
}

// A code, and two numbers beside it: they are 0 but for a code that says what they are.
#[derive(Clone, Copy, Debug, PartialEq, Eq)]
pub struct Rejected {
    pub code: RejectCode,
    pub first: u64,
    pub second: u64,
}

impl From<RejectCode> for Rejected {
    // the code with no numbers beside it
    ghost from_gives = { λ c r. r ≡ plainly c };

    fn from(code: RejectCode) -> Rejected {
        Rejected {
            code,
            first: 0,
            second: 0,
        }
    }
}

pub type Verdict = Result<Passed, Rejected>;
