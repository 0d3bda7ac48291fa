// What the house is told, and what it answers.
ghost use Rattle.std.specs.Prelude.{◌≡◌};
ghost use Rattle.rules.specs.Numbers.{answer_number};

use crate::auction::TicketName;
use crate::hedge::Line;
use terms::refusal::Refusal;

// The ten calls, with any numbers. Bid and seal name a bidding ticket, publish a sealed one; fix names the room of its list.
#[derive(Clone, Copy, PartialEq, Eq, Debug)]
pub enum Call {
    Admit {
        institution: i64,
    },
    Announce {
        kind: i64,
        offer: i64,
        cap: i64,
        maturity: i64,
    },
    Bid {
        ticket: u32,
        institution: i64,
        price: i64,
        millions: i64,
    },
    Seal {
        ticket: u32,
    },
    Publish {
        ticket: u32,
    },
    Void {
        ticket: TicketName,
    },
    Fix {
        day: i64,
        rate: i64,
        room: usize,
    },
    Lodge {
        institution: i64,
        centavos: i64,
    },
    Release {
        institution: i64,
        centavos: i64,
    },
    Terminate {
        hedge: i64,
    },
}

// What an accepted call answers: nothing more, its ticket's number, the hedges published (how many, and the first number or 0),
// how many lines it wrote, or its one line.
#[derive(Clone, Copy, PartialEq, Eq, Debug)]
pub enum Accepted {
    Done,
    Ticket(u32),
    Published { first: u32, count: u32 },
    Fixed { lines: u32 },
    Terminated(Line),
}

pub type Answer = Result<Accepted, Refusal>;

// 0 for an accepted call, or the refusal's number.
pub fn answer_number(answer: Answer) -> u8
    ensures { result ≡ answer_number answer }
{
    match answer {
        Ok(_) => 0,
        Err(why) => why.number(),
    }
}
