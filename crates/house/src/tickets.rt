// Tickets: a type for each stage of an auction. None can be let go: each is published or voided.
ghost use Rattle.std.specs.Prelude.{◌≡◌};
ghost use Rattle.house.specs.Tickets.{ticket_name};

use rules::auction::{Stage, TicketName};
use terms::refusal::Refusal;

// Announce gives it; bids are made under it.
pub struct BiddingTicket {
    pub(crate) number: u32,
}

// Seal gives it; publish takes it.
pub struct SealedTicket {
    pub(crate) number: u32,
}

// Either, for void.
pub enum Ticket {
    Bidding(BiddingTicket),
    Sealed(SealedTicket),
}

// Why a call was refused, with the ticket given back.
pub struct Returned<X> {
    pub why: Refusal,
    pub ticket: X,
}

impl BiddingTicket {
    pub fn number(&self) -> u32
        ensures { result ≡ self.now.number }
    {
        self.number
    }
}

impl SealedTicket {
    pub fn number(&self) -> u32
        ensures { result ≡ self.now.number }
    {
        self.number
    }
}

impl Ticket {
    // By its number and stage.
    pub fn name(&self) -> TicketName
        ensures { result ≡ ticket_name self.now }
    {
        match self {
            Ticket::Bidding(ticket) => TicketName {
                number: ticket.number,
                stage: Stage::Bidding,
            },
            Ticket::Sealed(ticket) => TicketName {
                number: ticket.number,
                stage: Stage::Sealed,
            },
        }
    }

    // Only a call that voids may take a ticket apart.
    pub(crate) fn spend(self) -> TicketName
        ensures { result ≡ ticket_name self }
    {
        let name = self.name();
        match self {
            Ticket::Bidding(BiddingTicket { number: _ }) => name,
            Ticket::Sealed(SealedTicket { number: _ }) => name,
        }
    }
}
