ghost use Rattle.std.specs.Prelude.{◌≡◌, ◌<◌, ◌≤◌, true, IfOk, OnOk};
ghost use Rattle.rules.specs.declared.call.Call.TheVariants.{Announce, Seal, Void};
ghost use Rattle.rules.specs.Rules.{quietly, terms_given};
ghost use Rattle.terms.specs.Refusals.{first, answered};
ghost use Rattle.book.specs.Tests.{announce_input, announce_state, UnderTicket};
ghost use Rattle.book.specs.View.{Does, done_or, ticket_or};

use crate::book::Book;
use crate::standing::Standing;
use allotment::MILLION;
use rules::auction::{Kind, Stage, Terms, TicketName};
use terms::plan::Plan;
use terms::range::MILLIONS;
use terms::refusal::Refusal;

const MOST_AUCTIONS: u32 = 100_000;

// The terms that an announcement names.
fn read_terms(plan: &Plan, kind: i64, offer: i64, cap: i64, maturity: i64) -> Result<Terms, Refusal>
    ensures answer { result ≡ answered (first (announce_input plan.now kind offer cap maturity)) (terms_given kind offer cap maturity) }
    ensures offered { IfOk result (λ terms. (1 ≤ terms.offer) × (terms.offer ≤ 2000)) }
{
    if !MILLIONS.has(offer) || !MILLIONS.has(cap) {
        return Err(Refusal::AmountOutOfRange);
    }
    let kind = Kind::try_from(kind)?;
    if !plan.is_business_day(maturity) {
        return Err(Refusal::NoSuchDay);
    }
    Ok(Terms {
        kind,
        offer: offer as u32,
        cap: cap as u32,
        maturity: maturity as u32,
    })
}

impl Book {
    fn test_announce(&self, terms: Terms) -> Result<(), Refusal>
        requires { terms.offer ≤ 2000 }
        ensures answer { result ≡ answered (first (announce_state self.now terms)) tt }
        ensures passed { OnOk result (self.now.auctions < 100000) }
    {
        if self.auction.is_some() {
            return Err(Refusal::AuctionStands);
        }
        if terms.kind == Kind::Maturity
            && self.matured < u64::from(MILLION) * u64::from(terms.offer)
        {
            return Err(Refusal::OfferAboveMatured);
        }
        if self.auctions >= MOST_AUCTIONS {
            return Err(Refusal::NumbersUsedUp);
        }
        if terms.maturity <= self.day {
            return Err(Refusal::DayOutOfOrder);
        }
        Ok(())
    }

    // Puts up an auction on the current day, and answers its number.
    pub fn announce(
        &mut self,
        kind: i64,
        offer: i64,
        cap: i64,
        maturity: i64,
    ) -> Result<u32, Refusal>
        ensures { Does self.old (Announce kind offer cap maturity) (quietly (ticket_or result)) self.new }
    {
        self.put_up(kind, offer, cap, maturity)
    }

    fn put_up(&mut self, kind: i64, offer: i64, cap: i64, maturity: i64) -> Result<u32, Refusal>
        ensures { Does self.old (Announce kind offer cap maturity) (quietly (ticket_or result)) self.new }
    {
        let terms = read_terms(&self.plan, kind, offer, cap, maturity)?;
        self.test_announce(terms)?;
        let number = self.auctions + 1;
        self.auctions = number;
        self.taken = 0;
        self.auction = Some(Standing {
            ticket: TicketName {
                number,
                stage: Stage::Bidding,
            },
            terms,
        });
        Ok(number)
    }

    // The standing auction, where the ticket is its own by number and stage.
    pub(crate) fn auction_under(&self, ticket: TicketName) -> Result<Standing, Refusal>
        ensures { UnderTicket self.now.auction ticket result }
    {
        self.auction
            .filter(|standing| standing.ticket == ticket)
            .ok_or(Refusal::WrongTicket)
    }

    // Ends the bidding.
    pub fn seal(&mut self, number: u32) -> Result<u32, Refusal>
        ensures { Does self.old (Seal number) (quietly (ticket_or result)) self.new }
    {
        let standing = self.auction_under(TicketName {
            number,
            stage: Stage::Bidding,
        })?;
        self.auction = Some(Standing {
            ticket: TicketName {
                number,
                stage: Stage::Sealed,
            },
            ..standing
        });
        Ok(number)
    }

    // Drops the standing auction.
    pub fn void(&mut self, ticket: TicketName) -> Result<(), Refusal>
        ensures { Does self.old (Void ticket) (quietly (done_or result)) self.new }
    {
        self.auction_under(ticket)?;
        self.auction = None;
        Ok(())
    }
}
