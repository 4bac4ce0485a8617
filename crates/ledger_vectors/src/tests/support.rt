// What the tests share.
use accounts::figures::Figures;
use std::process::Abort;
use std::test::Fail;

// The value that is expected to be there.
pub fn some<T>(value: Option<T>) -> Result<T, Fail> {
    value.ok_or_else(|| Fail::new("none"))
}

pub fn check_figures(rt: &impl Abort, f: Figures, balance: i64, held_in: u64, held_out: u64) {
    assert_eq!(rt; f.balance, balance);
    assert_eq!(rt; f.held_in, held_in);
    assert_eq!(rt; f.held_out, held_out);
}
