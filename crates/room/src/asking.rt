ghost use Rattle.std.specs.Prelude.{◌≡◌};
ghost use Rattle.room.specs.Hands.{last_ticket};
ghost use Rattle.room.specs.Rooms.{room_books};
ghost use Rattle.room.specs.Runs.{meant};

use crate::request::Request;
use crate::room::Room;
use accounts::Accounts;
use conventions::Convention;
use rules::auction::{Stage, TicketName};
use rules::call::Call;
use tie_rules::rule::TieRule;

impl<A: Accounts, T: TieRule, C: Convention> Room<A, T, C> {
    fn last_ticket(&self) -> TicketName
        ensures { result ≡ last_ticket (room_books A.Accounts.balances A.Accounts.free T.TieRule.meaning C.Convention.meaning self.now) }
    {
        self.house.standing_ticket().unwrap_or(TicketName {
            number: self.house.auctions(),
            stage: Stage::Bidding,
        })
    }

    // The call that a request means: with the ticket in hand, under the last auction's number.
    pub fn meant(&self, request: Request) -> Call
        ensures { result ≡ meant (room_books A.Accounts.balances A.Accounts.free T.TieRule.meaning C.Convention.meaning self.now) request }
    {
        match request {
            Request::Named(call) => call,
            Request::Bid {
                institution,
                price,
                millions,
            } => Call::Bid {
                ticket: self.house.auctions(),
                institution,
                price,
                millions,
            },
            Request::Seal => Call::Seal {
                ticket: self.house.auctions(),
            },
            Request::Publish => Call::Publish {
                ticket: self.house.auctions(),
            },
            Request::Void => Call::Void {
                ticket: self.last_ticket(),
            },
        }
    }
}
