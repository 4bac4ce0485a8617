// A route as the operator passes it in: destinations that begin with the prefix go to the account.

#[derive(Clone, Copy)]
pub struct Route<'a> {
    pub prefix: &'a [u8],
    pub account: u8,
}
