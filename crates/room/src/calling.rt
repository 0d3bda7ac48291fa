ghost use Rattle.std.specs.Prelude.{◌≡◌};
ghost use Rattle.rules.specs.declared.call.Call.TheVariants.{Admit, Announce, Bid, Seal, Publish, Void, Lodge, Release};
ghost use Rattle.rules.specs.Rules.{quietly};
ghost use Rattle.book.specs.View.{done_or};
ghost use Rattle.room.specs.Rooms.{Turns};

use crate::room::Room;
use accounts::Accounts;
use book::publication::Publication;
use conventions::Convention;
use house::tickets::{Returned, Ticket};
use rules::auction::{Stage, TicketName};
use rules::call::{Accepted, Answer};
use terms::refusal::Refusal;
use tie_rules::rule::TieRule;

fn done_or(res: Result<(), Refusal>) -> Answer
    ensures { result ≡ done_or res }
{
    res.map(|()| Accepted::Done)
}

impl<A: Accounts, T: TieRule, C: Convention> Room<A, T, C> {
    pub(crate) fn admit(&mut self, institution: i64) -> Answer
        ensures { Turns A.Accounts.balances A.Accounts.free T.TieRule.meaning C.Convention.meaning self.old (Admit institution) (quietly result) self.new }
    {
        done_or(self.house.admit(institution))
    }

    pub(crate) fn lodge(&mut self, institution: i64, centavos: i64) -> Answer
        ensures { Turns A.Accounts.balances A.Accounts.free T.TieRule.meaning C.Convention.meaning self.old (Lodge institution centavos) (quietly result) self.new }
    {
        done_or(self.house.lodge(institution, centavos))
    }

    pub(crate) fn release(&mut self, institution: i64, centavos: i64) -> Answer
        ensures { Turns A.Accounts.balances A.Accounts.free T.TieRule.meaning C.Convention.meaning self.old (Release institution centavos) (quietly result) self.new }
    {
        done_or(self.house.release(institution, centavos))
    }

    pub(crate) fn announce(&mut self, kind: i64, offer: i64, cap: i64, maturity: i64) -> Answer
        ensures { Turns A.Accounts.balances A.Accounts.free T.TieRule.meaning C.Convention.meaning self.old (Announce kind offer cap maturity) (quietly result) self.new }
    {
        let ticket = self.house.announce(kind, offer, cap, maturity)?;
        let number = ticket.number();
        self.hold(Ticket::Bidding(ticket));
        Ok(Accepted::Ticket(number))
    }

    pub(crate) fn bid(&mut self, number: u32, institution: i64, price: i64, millions: i64) -> Answer
        ensures { Turns A.Accounts.balances A.Accounts.free T.TieRule.meaning C.Convention.meaning self.old (Bid number institution price millions) (quietly result) self.new }
    {
        let Some(held) = &self.hand else {
            return Err(Refusal::WrongTicket);
        };
        match held {
            Ticket::Sealed(_) => Err(Refusal::WrongTicket),
            Ticket::Bidding(ticket) => {
                if ticket.number() != number {
                    return Err(Refusal::WrongTicket);
                }
                done_or(self.house.bid(ticket, institution, price, millions))
            }
        }
    }

    pub(crate) fn seal(&mut self, number: u32) -> Answer
        ensures { Turns A.Accounts.balances A.Accounts.free T.TieRule.meaning C.Convention.meaning self.old (Seal number) (quietly result) self.new }
    {
        let ticket = self.take_ticket(TicketName {
            number,
            stage: Stage::Bidding,
        })?;
        match ticket {
            Ticket::Sealed(_other) => unreachable!(),
            Ticket::Bidding(ticket) => match self.house.seal(ticket) {
                Ok(sealed) => {
                    let given = sealed.number();
                    self.hold(Ticket::Sealed(sealed));
                    Ok(Accepted::Ticket(given))
                }
                Err(Returned { why, ticket }) => {
                    self.hold(Ticket::Bidding(ticket));
                    Err(why)
                }
            },
        }
    }

    pub(crate) fn publish(&mut self, number: u32) -> Answer
        ensures { Turns A.Accounts.balances A.Accounts.free T.TieRule.meaning C.Convention.meaning self.old (Publish number) (quietly result) self.new }
    {
        let ticket = self.take_ticket(TicketName {
            number,
            stage: Stage::Sealed,
        })?;
        match ticket {
            Ticket::Bidding(_other) => unreachable!(),
            Ticket::Sealed(ticket) => match self.house.publish(ticket) {
                Ok(Publication { first, count }) => Ok(Accepted::Published { first, count }),
                Err(Returned { why, ticket }) => {
                    self.hold(Ticket::Sealed(ticket));
                    Err(why)
                }
            },
        }
    }

    pub(crate) fn void(&mut self, ticket: TicketName) -> Answer
        ensures { Turns A.Accounts.balances A.Accounts.free T.TieRule.meaning C.Convention.meaning self.old (Void ticket) (quietly result) self.new }
    {
        let held = self.take_ticket(ticket)?;
        done_or(self.house.void(held))
    }
}
