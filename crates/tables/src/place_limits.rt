// Document 01, 'State block': what a place may hold.
ghost use Rattle.std.specs.Prelude.{◌≡◌};
ghost use Rattle.tables.specs.WellFormed.{from_to, cost_to, within};

// The least and the greatest number, and whether −1 is allowed too: 'A choice or pair of choices can be forbidden'.
#[derive(Clone, Copy)]
pub struct Limits {
    pub low: u64,
    pub high: u64,
    // Whether −1 is allowed too. The range holds in either case, so that an Option would lose it; an enum would repeat the upper bound in both of its cases.
    pub closable: bool,
}

impl Limits {
    // A number from low to high.
    pub fn from_to(low: u64, high: u64) -> Limits
        ensures { result ≡ from_to low high }
    {
        Limits {
            low,
            high,
            closable: false,
        }
    }

    // A cost, or −1.
    pub fn cost_to(high: u64) -> Limits
        ensures { result ≡ cost_to high }
    {
        Limits {
            low: 0,
            high,
            closable: true,
        }
    }

    // Whether z is from low to high, or −1 where it may be.
    #[tactic(auto, using(crate::proofs::Signed::allowed))]
    pub fn allow(self, z: i64) -> bool
        ensures { result ≡ within self z }
    {
        match u64::try_from(z) {
            Ok(n) => (self.low..=self.high).contains(&n),
            Err(_) => self.closable && z == -1,
        }
    }
}
