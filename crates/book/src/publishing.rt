ghost use Rattle.std.specs.Prelude.{◌≡◌, ◌+◌, ◌≤◌, length, take, OnOk, Some, None};
ghost use Rattle.std.specs.List.{AllByRecursion};
ghost use Rattle.terms.specs.Refusals.{first, answered};
ghost use Rattle.allotment.specs.Allotting.{allot_refused, dollars_of};
ghost use Rattle.portfolio.specs.View.{placed_of};
ghost use Rattle.rules.specs.Rules.{quietly};
ghost use Rattle.book.specs.Deals.{room_tests};
ghost use Rattle.book.specs.View.{Publishes, published_or};
ghost use Rattle.book.specs.Publishing.{Closes, Issues, deals_for, told_of};

use crate::book::Book;
use crate::deals::{Sale, count_given, sum};
use crate::publication::Publication;
use crate::standing::Standing;
use allotment::{MOST_BIDS, allot};
use portfolio::portfolio::{MOST_HEDGES, MOST_NUMBERS};
use rules::auction::{Bid, Kind, Stage, TicketName};
use terms::refusal::Refusal;
use tie_rules::rule::TieRule;

// Writes what each bid of an auction gets into the first places.
fn write_dollars<T: TieRule>(tie_rule: &T, offer: u32, bids: &[Bid], dollars: &mut [u32])
    requires room { length bids.now ≤ length dollars.old }
    requires passed { allot_refused offer bids.now (length bids.now) ≡ None }
    ensures { take (length bids.now) dollars.new ≡ dollars_of (T.TieRule.meaning tie_rule.now) offer bids.now }
{
    let _ = allot(tie_rule, offer, bids, &mut dollars[..bids.len()]);
}

impl Book {
    fn test_room(&self, count: usize) -> Result<(), Refusal>
        requires { count ≤ 64 }
        ensures answer { result ≡ answered (first (room_tests (length (placed_of self.now.portfolio)) self.now.portfolio.numbered count)) tt }
        ensures passed { OnOk result ((length (placed_of self.now.portfolio) + count ≤ 128) × (self.now.portfolio.numbered + count ≤ 100000)) }
    {
        if count > MOST_HEDGES - self.portfolio.placed() {
            return Err(Refusal::HedgePlacesFull);
        }
        if count > (MOST_NUMBERS - self.portfolio.numbered()) as usize {
            return Err(Refusal::NumbersUsedUp);
        }
        Ok(())
    }

    // The first of so many new hedge numbers, or 0 for none, and how many they are.
    fn publication_of(&self, count: usize) -> Publication
        requires { count ≤ 64 }
        ensures { result ≡ told_of self.now.portfolio.numbered count }
    {
        let first = if count == 0 {
            0
        } else {
            self.portfolio.numbered() + 1
        };
        Publication {
            first,
            count: count as u32,
        }
    }

    // Lets no auction stand, and takes what a maturity auction sold off the dollars matured.
    fn close_auction(&mut self, kind: Kind, sold: u64)
        ensures { Closes self.old kind sold self.new }
    {
        if kind == Kind::Maturity {
            self.matured = self.matured.saturating_sub(sold);
        }
        self.auction = None;
    }

    // Makes hedges of the standing auction's bids with these dollars, if there is room for all.
    fn issue_allotted(
        &mut self,
        standing: Standing,
        dollars: &[u32],
    ) -> Result<Publication, Refusal>
        requires stood { self.old.auction ≡ Some standing }
        requires sizes { length dollars.now ≡ self.old.taken }
        requires dollars { AllByRecursion (λ d. d ≤ 2000000000) dollars.now }
        ensures { Issues self.old (deals_for self.old standing dollars.now) standing.terms.kind result self.new }
    {
        let count = count_given(dollars);
        self.test_room(count)?;
        let publication = self.publication_of(count);
        let bids = self.bids;
        let sale = Sale {
            day: self.day,
            rate: self.rate,
            terms: standing.terms,
        };
        sale.issue_all(&mut self.portfolio, &bids[..self.taken], dollars);
        self.close_auction(standing.terms.kind, sum(dollars));
        Ok(publication)
    }

    // Allots the standing auction under its sealed ticket; each bid with dollars becomes a hedge with the next number.
    pub fn publish<T: TieRule>(&mut self, tie_rule: &T, number: u32) -> Result<Publication, Refusal>
        ensures { Publishes (T.TieRule.meaning tie_rule.now) self.old number (quietly (published_or result)) self.new }
    {
        let standing = self.auction_under(TicketName {
            number,
            stage: Stage::Sealed,
        })?;
        let mut dollars = [0; MOST_BIDS];
        let bids = &self.bids[..self.taken];
        write_dollars(tie_rule, standing.terms.offer, bids, &mut dollars);
        self.issue_allotted(standing, &dollars[..self.taken])
    }
}
