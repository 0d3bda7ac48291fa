// Auctions, their terms and their bids.
ghost use Rattle.std.specs.Prelude.{◌≡◌, not, [], ◌∷◌};
ghost use Rattle.terms.specs.declared.refusal.Refusal.TheVariants.{UnknownKind};
ghost use Rattle.terms.specs.Refusals.{first, answered};
ghost use Rattle.rules.specs.Numbers.{is_kind, kind_of, kind_number};

use terms::refusal::Refusal;

#[derive(Clone, Copy, PartialEq, Eq, Debug)]
pub enum Kind {
    Initial = 0,
    Maturity = 1,
}

impl TryFrom<i64> for Kind {
    type Error = Refusal;

    ghost try_from_gives = { λ kind answer. answer ≡ answered (first ((UnknownKind, not (is_kind kind)) ∷ [])) (kind_of kind) };

    fn try_from(kind: i64) -> Result<Kind, Refusal> {
        match kind {
            0 => Ok(Kind::Initial),
            1 => Ok(Kind::Maturity),
            _ => Err(Refusal::UnknownKind),
        }
    }
}

impl Kind {
    pub fn number(self) -> u8
        ensures { result ≡ kind_number self }
    {
        self as u8
    }
}

// An auction takes bids until it is sealed.
#[derive(Clone, Copy, PartialEq, Eq, Debug)]
pub enum Stage {
    Bidding,
    Sealed,
}

// A ticket by its auction's number and its stage.
#[derive(Clone, Copy, PartialEq, Eq, Debug)]
pub struct TicketName {
    pub number: u32,
    pub stage: Stage,
}

// Offer and cap are whole millions of dollars.
#[derive(Clone, Copy, PartialEq, Eq, Debug)]
pub struct Terms {
    pub kind: Kind,
    pub offer: u32,
    pub cap: u32,
    pub maturity: u32,
}

// The price is a rate, or units over the current rate in a maturity auction.
#[derive(Clone, Copy, PartialEq, Eq, Debug, Default)]
pub struct Bid {
    pub institution: u32,
    pub price: i32,
    pub millions: u32,
}
