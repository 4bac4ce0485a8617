// The two accounts of a transfer: two different ones of the eight that there can be.
ghost use Rattle.std.specs.Prelude.{◌≡◌, ◌<◌, ◌≢◌};

#[derive(Clone, Copy)]
pub struct AccountPair {
    incoming: u8,
    outgoing: u8,
    ghost source: { incoming < 8 },
    ghost target: { outgoing < 8 },
    ghost apart: { incoming ≢ outgoing },
}

impl AccountPair {
    ghost use Rattle.stage.specs.Accounts.{Pairs};

    // The pair, or none where an account is above 7 or the two are the same.
    pub fn new(incoming: u8, outgoing: u8) -> Option<AccountPair>
        ensures { Pairs incoming outgoing result }
    {
        if incoming < 8 && outgoing < 8 && incoming != outgoing {
            Some(AccountPair { incoming, outgoing })
        } else {
            None
        }
    }

    pub fn incoming(&self) -> u8
        ensures value { result ≡ self.now.incoming }
        ensures bound { result < 8 }
    {
        self.incoming
    }

    pub fn outgoing(&self) -> u8
        ensures value { result ≡ self.now.outgoing }
        ensures bound { result < 8 }
    {
        self.outgoing
    }
}
