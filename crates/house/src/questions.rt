ghost use Rattle.std.specs.Prelude.{◌≡◌, pos, if◌then◌else◌, Some, None, int_lt, nat_eq, unsigned_abs};
ghost use Rattle.terms.specs.Refusals.{first, answered};
ghost use Rattle.rules.specs.Rules.{ask, question_tests, position_of};
ghost use Rattle.portfolio.specs.View.{placed_of};
ghost use Rattle.book.specs.View.{ticket_standing};
ghost use Rattle.house.specs.Calls.{house_books};

use crate::house::House;
use accounts::Accounts;
use conventions::Convention;
use rules::auction::TicketName;
use rules::hedge::{Hedge, Position};
use terms::refusal::Refusal;
use tie_rules::rule::TieRule;

impl<A: Accounts, T: TieRule, C: Convention> House<A, T, C> {
    // The hedge on a place with that number, open or closed since the last fix.
    pub fn hedge(&self, number: i64) -> Option<Hedge>
        ensures { result ≡ (if int_lt number (pos 0) then None else ask (unsigned_abs number) (placed_of self.now.book.portfolio)) }
    {
        self.book.hedge(number)
    }

    // An admitted institution's balance, collateral, value and requirement.
    pub fn institution(&self, institution: i64) -> Result<Position, Refusal>
        ensures { result ≡ answered (first (question_tests (house_books A.Accounts.balances A.Accounts.free self.now) institution)) (position_of (house_books A.Accounts.balances A.Accounts.free self.now) institution) }
    {
        let desk = self.book.desk(institution)?;
        let balance = self.accounts.balance(institution)?;
        Ok(Position {
            balance,
            collateral: desk.collateral,
            value: desk.value,
            requirement: desk.requirement,
        })
    }

    // The day of the last fix, or the starting day.
    pub fn day(&self) -> u32
        ensures { result ≡ self.now.book.day }
    {
        self.book.day()
    }

    // The rate of the last fix, if there was one.
    pub fn rate(&self) -> Option<u32>
        ensures { result ≡ (if nat_eq self.now.book.rate 0 then None else Some self.now.book.rate) }
    {
        self.book.rate()
    }

    // How many postings the accounts still take.
    pub fn free_postings(&self) -> usize
        ensures { result ≡ A.Accounts.free self.now.accounts }
    {
        self.accounts.free_postings()
    }

    // How many auctions were announced, so the number of the last.
    pub fn auctions(&self) -> u32
        ensures { result ≡ self.now.book.auctions }
    {
        self.book.auctions()
    }

    // The ticket of the standing auction, by its number and stage.
    pub fn standing_ticket(&self) -> Option<TicketName>
        ensures { result ≡ ticket_standing self.now.book.auction }
    {
        self.book.standing_ticket()
    }
}
