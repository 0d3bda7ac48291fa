ghost use Rattle.std.specs.Prelude.{◌≡◌};
ghost use Rattle.terms.specs.Refusals.{number_of};

// Why a call was refused. A refused call changes nothing.
#[derive(Clone, Copy, PartialEq, Eq, Debug)]
pub enum Refusal {
    // from the input alone
    UnknownParty = 1,
    AmountOutOfRange = 2,
    UnknownKind = 3,
    PriceOutOfRange = 4,
    NoSuchDay = 5,
    WrongLength = 6,
    BadNumber = 7,
    BadRecord = 8,
    // from the state of the house
    AlreadyAdmitted = 11,
    NotAdmitted = 12,
    AuctionStands = 13,
    WrongTicket = 14,
    BidsFull = 15,
    CapPassed = 16,
    OfferAboveMatured = 17,
    HedgePlacesFull = 18,
    NumbersUsedUp = 19,
    DayOutOfOrder = 20,
    NoFreePosting = 21,
    HedgeNotOpen = 22,
    NoFixYet = 23,
    CollateralOutOfBounds = 24,
}

impl Refusal {
    // The number under which the refusal is told.
    pub fn number(self) -> u8
        ensures { result ≡ number_of self }
    {
        self as u8
    }
}
