ghost use Rattle.std.specs.Prelude.{◌≡◌, None};
ghost use Rattle.room.specs.Hands.{hand_ticket, is_held};
ghost use Rattle.room.specs.Rooms.{Held, Taken, Voided};

use crate::room::Room;
use accounts::Accounts;
use conventions::Convention;
use house::house::House;
use house::tickets::Ticket;
use rules::auction::TicketName;
use terms::refusal::Refusal;
use tie_rules::rule::TieRule;

// Whether the ticket in hand is this one.
pub(crate) fn is_held(hand: &Option<Ticket>, ticket: TicketName) -> bool
    ensures { result ≡ is_held (hand_ticket hand.now) ticket }
{
    hand.as_ref().is_some_and(|held| held.name() == ticket)
}

// Voids a ticket that is still in hand.
pub(crate) fn spend<A: Accounts, T: TieRule, C: Convention>(
    house: &mut House<A, T, C>,
    hand: Option<Ticket>,
)
    ensures nothing { hand ≡ None → house.new ≡ house.old }
    ensures voided { Voided hand house.old house.new }
{
    if let Some(ticket) = hand {
        let _ = house.void(ticket);
    }
}

impl<A: Accounts, T: TieRule, C: Convention> Room<A, T, C> {
    // Takes the ticket out of the hand, if it is this one.
    pub(crate) fn take_ticket(&mut self, ticket: TicketName) -> Result<Ticket, Refusal>
        ensures { Taken self.old ticket result self.new }
    {
        if !is_held(&self.hand, ticket) {
            return Err(Refusal::WrongTicket);
        }
        self.hand.take().ok_or(Refusal::WrongTicket)
    }

    // Takes a ticket in hand. An empty hand is all that a call leaves for it; were another ticket there, it would be voided.
    pub(crate) fn hold(&mut self, ticket: Ticket)
        ensures { Held self.old ticket self.new }
    {
        let before = self.hand.replace(ticket);
        spend(&mut self.house, before);
    }
}
