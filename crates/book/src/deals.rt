// Hedges for the bids that got dollars.
ghost use Rattle.std.specs.Prelude.{◌≡◌, suc, ◌+◌, ◌<◌, ◌≤◌, true, [], ◌∷◌, ◌++◌, map, length, unsigned_abs};
ghost use Rattle.std.specs.List.{list_all, AllByRecursion};
ghost use Rattle.terms.specs.Ranges.{is_rate};
ghost use Rattle.rules.specs.Allotment.{assigned_rate, deal_of};
ghost use Rattle.rules.specs.Books.{total};
ghost use Rattle.rules.specs.Settlement.{fresh};
ghost use Rattle.portfolio.specs.View.{placed_of};
ghost use Rattle.book.specs.Deals.{deals_of, given};
ghost use Rattle.book.specs.Soundness.{is_sound_bid};

use portfolio::portfolio::Portfolio;
use rules::auction::{Bid, Kind, Terms};
use terms::rate::Rate;

// What the hedges of one publication have in common.
#[derive(Clone, Copy)]
pub(crate) struct Sale {
    pub(crate) day: u32,
    pub(crate) rate: u32,
    pub(crate) terms: Terms,
    ghost rated: { rate ≤ 999999 },
}

impl Sale {
    // The assignment rate of a bid.
    fn assigned_rate(self, bid: Bid) -> Rate
        requires { is_rate (assigned_rate self.terms.kind self.rate bid.price) ≡ true }
        ensures { result.units ≡ unsigned_abs (assigned_rate self.terms.kind self.rate bid.price) }
    {
        let price = i64::from(bid.price);
        let units = match self.terms.kind {
            Kind::Initial => price,
            Kind::Maturity => price + i64::from(self.rate),
        };
        Rate::try_from(units).unwrap()
    }

    // A bid with dollars becomes a hedge with the next number.
    fn issue_hedge(self, portfolio: &mut Portfolio, bid: Bid, dollars: u32)
        requires sound { is_sound_bid self.terms.kind self.rate bid ≡ true }
        requires dollars { (1 ≤ dollars) × (dollars ≤ 2000000000) }
        requires room { (length (placed_of portfolio.old) < 128) × (portfolio.old.numbered < 100000) }
        ensures hedges { placed_of portfolio.new ≡ placed_of portfolio.old ++ (fresh self.day (deal_of (suc portfolio.old.numbered) self.rate self.terms (record { of = bid; dollars = dollars })) ∷ []) }
        ensures numbered { portfolio.new.numbered ≡ suc portfolio.old.numbered }
    {
        let assigned = self.assigned_rate(bid);
        let _ = portfolio.issue(
            self.day,
            bid.institution,
            dollars,
            assigned,
            self.terms.maturity,
        );
    }

    // A bid that got nought becomes nothing.
    fn issue_one(self, portfolio: &mut Portfolio, bid: Bid, dollars: u32)
        requires sound { is_sound_bid self.terms.kind self.rate bid ≡ true }
        requires dollars { dollars ≤ 2000000000 }
        requires room { (length (placed_of portfolio.old) + given (dollars ∷ []) ≤ 128) × (portfolio.old.numbered + given (dollars ∷ []) ≤ 100000) }
        ensures hedges { placed_of portfolio.new ≡ placed_of portfolio.old ++ map (fresh self.day) (deals_of portfolio.old.numbered self.rate self.terms (bid ∷ []) (dollars ∷ [])) }
        ensures numbered { portfolio.new.numbered ≡ portfolio.old.numbered + given (dollars ∷ []) }
    {
        if dollars > 0 {
            self.issue_hedge(portfolio, bid, dollars);
        }
    }

    // Issues a hedge for each bid with dollars, in the bids' order.
    pub(crate) fn issue_all(self, portfolio: &mut Portfolio, bids: &[Bid], dollars: &[u32])
        requires sizes { length bids.now ≡ length dollars.now }
        requires sound { list_all (is_sound_bid self.terms.kind self.rate) bids.now ≡ true }
        requires dollars { AllByRecursion (λ d. d ≤ 2000000000) dollars.now }
        requires room { (length (placed_of portfolio.old) + given dollars.now ≤ 128) × (portfolio.old.numbered + given dollars.now ≤ 100000) }
        ensures hedges { placed_of portfolio.new ≡ placed_of portfolio.old ++ map (fresh self.day) (deals_of portfolio.old.numbered self.rate self.terms bids.now dollars.now) }
        ensures numbered { portfolio.new.numbered ≡ portfolio.old.numbered + given dollars.now }
    {
        for (bid, amount) in bids.iter().zip(dollars) {
            self.issue_one(portfolio, *bid, *amount);
        }
    }
}

// How many bids got dollars.
pub(crate) fn count_given(dollars: &[u32]) -> usize
    ensures count { result ≡ given dollars.now }
    ensures few { result ≤ length dollars.now }
{
    dollars.iter().filter(|amount| **amount > 0).count()
}

pub(crate) fn sum(dollars: &[u32]) -> u64
    requires { length dollars.now ≤ 64 }
    ensures { result ≡ total dollars.now }
{
    dollars.iter().map(|amount| u64::from(*amount)).sum()
}
