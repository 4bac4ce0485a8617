// The price of each of the eight accounts' money, none of them 0.
ghost use Rattle.std.specs.Prelude.{◌≡◌, ◌<◌, true, slice_index};
ghost use Rattle.layers.specs.Positive.{all_positive};

#[derive(Clone, Copy)]
pub struct Prices {
    of: [u32; 8],
    ghost positive: { all_positive of ≡ true },
}

fn all_positive(of: &[u32]) -> bool
    ensures { result ≡ all_positive of.now }
{
    of.iter().all(|price| *price > 0)
}

impl Prices {
    ghost use Rattle.layers.specs.Priced.{PricesMade};

    // The prices, or none where one of them is 0.
    pub fn new(of: [u32; 8]) -> Option<Prices>
        ensures { PricesMade of result }
    {
        if !all_positive(&of) {
            return None;
        }
        Some(Prices { of })
    }

    #[tactic(auto, using(std::proofs::lemmas::List::Folds::list_all_at))]
    pub(crate) fn price(&self, account: u8) -> u32
        requires { account < 8 }
        ensures value { result ≡ slice_index self.now.of account }
        ensures positive { 0 < result }
    {
        self.of[account as usize]
    }
}
