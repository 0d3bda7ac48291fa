ghost use Rattle.std.specs.Prelude.{◌≡◌, ℕ, pos};
ghost use Rattle.rules.specs.Books.{opened};
ghost use Rattle.book.specs.View.{books_of};

use crate::book::Book;
use allotment::MOST_BIDS;
use portfolio::portfolio::Portfolio;
use rules::auction::Bid;
use rules::hedge::Desk;
use terms::plan::Plan;
use terms::range::PARTY_COUNT;

// Written out, and not the default, so that what new tables are is proved by their values alone.
const NO_DESK: Desk = Desk {
    admitted: false,
    collateral: 0,
    value: 0,
    requirement: 0,
};

impl Book {
    // The tables of a house just made of a checked plan.
    pub fn new(plan: Plan) -> Book
        ensures made { (free : ℕ) → books_of (λ _. pos 0) free result ≡ opened plan free }
        ensures plan { result.plan ≡ plan }
    {
        Book {
            plan,
            day: plan.start(),
            rate: 0,
            auction: None,
            auctions: 0,
            bids: [Bid::default(); MOST_BIDS],
            taken: 0,
            portfolio: Portfolio::new(),
            matured: 0,
            desks: [NO_DESK; PARTY_COUNT],
        }
    }
}
