ghost use Rattle.std.specs.Prelude.{◌≡◌};
ghost use Rattle.terms.specs.Ranges.{within};

// The numbers from `least` to `most`, both included.
#[derive(Clone, Copy)]
pub struct Range {
    pub least: i64,
    pub most: i64,
}

impl Range {
    pub fn has(self, number: i64) -> bool
        ensures { result ≡ within self.least self.most number }
    {
        self.least <= number && number <= self.most
    }
}

// Party 0 is the central bank, 1 to 16 are institutions.
pub const PARTIES: Range = Range { least: 0, most: 16 };

pub const PARTY_COUNT: usize = 17;

pub const INSTITUTIONS: Range = Range { least: 1, most: 16 };
// Whole millions of dollars of an offer, a cap or a bid.
pub const MILLIONS: Range = Range {
    least: 1,
    most: 2_000,
};
// Whole dollars of a hedge, of a tied bid, or left to share.
pub const DOLLARS: Range = Range {
    least: 1,
    most: 2_000_000_000,
};
// Ten-thousandths of a peso per dollar.
pub const RATES: Range = Range {
    least: 1,
    most: 999_999,
};
// The same, as a maturity bid adds them to the current rate.
pub const UNITS: Range = Range {
    least: -9_999,
    most: 99_999,
};

pub const PERCENTS: Range = Range {
    least: 0,
    most: 100,
};
// Day 0 is Sunday 1 January 2017, the last is 31 December 2099.
pub const DAYS: Range = Range {
    least: 0,
    most: 30_314,
};
// Centavos of one posting.
pub const POSTINGS: Range = Range {
    least: 0,
    most: 30_000_000_000_000,
};

// Centavos of collateral that may be lodged or released at once.
pub const LODGEMENTS: Range = Range {
    least: 1,
    most: 1_000_000_000_000_000,
};
