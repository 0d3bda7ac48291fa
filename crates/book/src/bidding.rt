ghost use Rattle.std.specs.Prelude.{◌≡◌, ◌+◌, ◌<◌, ◌≤◌, true, map, length, take, sum, filter, position, ◌==◌, int_lt, negsuc, pos, ◌≤ℤ◌, IfOk, OnOk, slice_index_or};
ghost use Rattle.terms.specs.Refusals.{first, answered};
ghost use Rattle.rules.specs.Allotment.{entered};
ghost use Rattle.rules.specs.Rules.{bid_given, is_price, quietly};
ghost use Rattle.rules.specs.declared.call.Call.TheVariants.{Bid as Offers};
ghost use Rattle.book.specs.View.{Does, done_or};
ghost use Rattle.book.specs.Soundness.{no_desk, is_sound_bid};
ghost use Rattle.book.specs.Tests.{bid_input, bid_state};

use crate::book::Book;
use crate::standing::Standing;
use allotment::MOST_BIDS;
use rules::auction::{Bid, Kind, Stage, Terms, TicketName};
use terms::price::rate_by_units;
use terms::range::{INSTITUTIONS, MILLIONS, RATES};
use terms::refusal::Refusal;

fn is_price(kind: Kind, rate: u32, price: i64) -> bool
    ensures value { result ≡ is_price kind rate price }
    ensures bounds { result ≡ true → (negsuc 9998 ≤ℤ price) × (price ≤ℤ pos 999999) }
{
    match kind {
        Kind::Initial => RATES.has(price),
        Kind::Maturity => rate_by_units(price, rate).is_ok(),
    }
}

fn millions_of(bids: &[Bid], institution: u32) -> u64
    requires { length bids.now ≤ 64 }
    ensures { result ≡ sum (map (λ bid. bid.millions) (filter (λ bid. bid.institution == institution) bids.now)) }
{
    bids.iter()
        .filter(|bid| bid.institution == institution)
        .map(|bid| u64::from(bid.millions))
        .sum()
}

// The bid that a call names.
fn read_bid(
    kind: Kind,
    rate: u32,
    institution: i64,
    price: i64,
    millions: i64,
) -> Result<Bid, Refusal>
    ensures answer { result ≡ answered (first (bid_input kind rate institution price millions)) (bid_given institution price millions) }
    ensures sound { IfOk result (λ bid. is_sound_bid kind rate bid ≡ true) }
{
    if !INSTITUTIONS.has(institution) {
        return Err(Refusal::UnknownParty);
    }
    if !MILLIONS.has(millions) {
        return Err(Refusal::AmountOutOfRange);
    }
    if !is_price(kind, rate, price) {
        return Err(Refusal::PriceOutOfRange);
    }
    Ok(Bid {
        institution: institution as u32,
        price: price as i32,
        millions: millions as u32,
    })
}

fn is_lower(bid: &Bid, other: &Bid) -> bool
    ensures { result ≡ int_lt bid.now.price other.now.price }
{
    bid.price < other.price
}

// Where the first bid stands that is lower than this one.
fn first_lower(bids: &[Bid], bid: Bid) -> Option<usize>
    ensures { result ≡ position (λ held. int_lt held.price bid.price) bids.now }
{
    bids.iter().position(|held| is_lower(held, &bid))
}

// Puts a bid on its place, and moves the lower ones on.
fn enter(bids: &mut [Bid], taken: usize, bid: Bid)
    requires { taken < length bids.old }
    ensures { take (taken + 1) bids.new ≡ entered bid (take taken bids.old) }
{
    let place = first_lower(&bids[..taken], bid).unwrap_or(taken);
    bids[taken] = bid;
    bids[place..taken + 1].rotate_right(1);
}

impl Book {
    fn test_bid(&self, terms: Terms, bid: Bid) -> Result<(), Refusal>
        requires { (bid.institution ≤ 16) × (1 ≤ bid.millions) }
        ensures answer { result ≡ answered (first (bid_state terms (take self.now.taken self.now.bids) (slice_index_or self.now.desks bid.institution no_desk) bid)) tt }
        ensures passed { OnOk result (self.now.taken < 64) }
    {
        if !self.desks[bid.institution as usize].admitted {
            return Err(Refusal::NotAdmitted);
        }
        if self.taken >= MOST_BIDS {
            return Err(Refusal::BidsFull);
        }
        let bidden = millions_of(&self.bids[..self.taken], bid.institution);
        let left = u64::from(terms.cap).saturating_sub(bidden);
        if left < u64::from(bid.millions) {
            return Err(Refusal::CapPassed);
        }
        Ok(())
    }

    // Takes a bid under the bidding ticket.
    pub fn bid(
        &mut self,
        number: u32,
        institution: i64,
        price: i64,
        millions: i64,
    ) -> Result<(), Refusal>
        ensures { Does self.old (Offers number institution price millions) (quietly (done_or result)) self.new }
    {
        self.take_bid(number, institution, price, millions)
    }

    fn take_bid(
        &mut self,
        number: u32,
        institution: i64,
        price: i64,
        millions: i64,
    ) -> Result<(), Refusal>
        ensures { Does self.old (Offers number institution price millions) (quietly (done_or result)) self.new }
    {
        let Standing { terms, .. } = self.auction_under(TicketName {
            number,
            stage: Stage::Bidding,
        })?;
        let bid = read_bid(terms.kind, self.rate, institution, price, millions)?;
        self.test_bid(terms, bid)?;
        enter(&mut self.bids, self.taken, bid);
        self.taken += 1;
        Ok(())
    }
}
