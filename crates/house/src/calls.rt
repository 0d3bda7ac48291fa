ghost use Rattle.std.specs.Prelude.{◌≡◌};
ghost use Rattle.rules.specs.declared.call.Call.TheVariants.{Admit, Announce, Bid, Seal, Void, Lodge, Release};
ghost use Rattle.book.specs.View.{done_or};
ghost use Rattle.house.specs.Calls.{Allots, Quiet, announced_or, published_or, sealed_or, GivesBack};
ghost use Rattle.house.specs.Tickets.{ticket_name};

use crate::house::House;
use crate::tickets::{BiddingTicket, Returned, SealedTicket, Ticket};
use accounts::Accounts;
use book::publication::Publication;
use conventions::Convention;
use terms::refusal::Refusal;
use tie_rules::rule::TieRule;

impl<A: Accounts, T: TieRule, C: Convention> House<A, T, C> {
    // Enters an institution.
    pub fn admit(&mut self, institution: i64) -> Result<(), Refusal>
        ensures { Quiet self.old (Admit institution) (done_or result) self.new }
    {
        self.book.admit(institution)
    }

    // Puts up an auction on the current day, and gives its ticket.
    pub fn announce(
        &mut self,
        kind: i64,
        offer: i64,
        cap: i64,
        maturity: i64,
    ) -> Result<BiddingTicket, Refusal>
        ensures { Quiet self.old (Announce kind offer cap maturity) (announced_or result) self.new }
    {
        let number = self.book.announce(kind, offer, cap, maturity)?;
        Ok(BiddingTicket { number })
    }

    // Takes a bid under the bidding ticket.
    pub fn bid(
        &mut self,
        ticket: &BiddingTicket,
        institution: i64,
        price: i64,
        millions: i64,
    ) -> Result<(), Refusal>
        ensures { Quiet self.old (Bid ticket.now.number institution price millions) (done_or result) self.new }
    {
        self.book.bid(ticket.number, institution, price, millions)
    }

    // Ends the bidding: takes the bidding ticket and gives a sealed one.
    pub fn seal(&mut self, ticket: BiddingTicket) -> Result<SealedTicket, Returned<BiddingTicket>>
        ensures calls { Quiet self.old (Seal ticket.number) (sealed_or result) self.new }
        ensures ticket { GivesBack ticket result }
    {
        match self.book.seal(ticket.number) {
            Ok(number) => {
                let BiddingTicket { number: _ } = ticket;
                Ok(SealedTicket { number })
            }
            Err(why) => Err(Returned { why, ticket }),
        }
    }

    // Allots the standing auction: takes the sealed ticket, and makes a hedge of each bid that got dollars.
    pub fn publish(&mut self, ticket: SealedTicket) -> Result<Publication, Returned<SealedTicket>>
        ensures calls { Allots T.TieRule.meaning self.old ticket.number (published_or result) self.new }
        ensures ticket { GivesBack ticket result }
    {
        match self.book.publish(&self.tie_rule, ticket.number) {
            Ok(publication) => {
                let SealedTicket { number: _ } = ticket;
                Ok(publication)
            }
            Err(why) => Err(Returned { why, ticket }),
        }
    }

    // Drops the standing auction; the ticket is spent, whatever the answer.
    pub fn void(&mut self, ticket: Ticket) -> Result<(), Refusal>
        ensures { Quiet self.old (Void (ticket_name ticket)) (done_or result) self.new }
    {
        self.book.void(ticket.spend())
    }

    // Raises an institution's collateral.
    pub fn lodge(&mut self, institution: i64, centavos: i64) -> Result<(), Refusal>
        ensures { Quiet self.old (Lodge institution centavos) (done_or result) self.new }
    {
        self.book.lodge(institution, centavos)
    }

    // Lowers an institution's collateral.
    pub fn release(&mut self, institution: i64, centavos: i64) -> Result<(), Refusal>
        ensures { Quiet self.old (Release institution centavos) (done_or result) self.new }
    {
        self.book.release(institution, centavos)
    }
}
