ghost use Rattle.std.specs.Prelude.{◌≡◌, pos, if◌then◌else◌, Some, None, int_lt, nat_eq, slice_index_or, unsigned_abs};
ghost use Rattle.portfolio.specs.View.{placed_of};
ghost use Rattle.rules.specs.Rules.{ask};
ghost use Rattle.terms.specs.Refusals.{first, answered};
ghost use Rattle.book.specs.Soundness.{no_desk};
ghost use Rattle.book.specs.Tests.{desk_tests};
ghost use Rattle.book.specs.View.{ticket_standing};

use crate::book::Book;
use rules::auction::TicketName;
use rules::hedge::{Desk, Hedge};
use terms::institution::Institution;
use terms::refusal::Refusal;

impl Book {
    // The day of the last fix, or the starting day.
    pub fn day(&self) -> u32
        ensures { result ≡ self.now.day }
    {
        self.day
    }

    // The rate of the last fix, if there was one.
    pub fn rate(&self) -> Option<u32>
        ensures { result ≡ (if nat_eq self.now.rate 0 then None else Some self.now.rate) }
    {
        (self.rate > 0).then_some(self.rate)
    }

    // How many auctions were announced, so the number of the last.
    pub fn auctions(&self) -> u32
        ensures { result ≡ self.now.auctions }
    {
        self.auctions
    }

    // The ticket of the standing auction, by its number and stage.
    pub fn standing_ticket(&self) -> Option<TicketName>
        ensures { result ≡ ticket_standing self.now.auction }
    {
        self.auction.map(|standing| standing.ticket)
    }

    // The hedge on a place with that number, open or closed since the last fix.
    pub fn hedge(&self, number: i64) -> Option<Hedge>
        ensures { result ≡ (if int_lt number (pos 0) then None else ask (unsigned_abs number) (placed_of self.now.portfolio)) }
    {
        self.portfolio.hedge(number)
    }

    // What an admitted institution's desk holds.
    pub fn desk(&self, institution: i64) -> Result<Desk, Refusal>
        ensures { result ≡ answered (first (desk_tests self.now.desks institution)) (slice_index_or self.now.desks (unsigned_abs institution) no_desk) }
    {
        let institution = Institution::try_from(institution)?;
        let desk = self.desks[institution.place()];
        if !desk.admitted {
            return Err(Refusal::NotAdmitted);
        }
        Ok(desk)
    }
}
