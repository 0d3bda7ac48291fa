ghost use Rattle.std.specs.Prelude.{◌≡◌, ◌≤◌, true, ◌&&◌, pos, if◌then◌else◌, ◌==◌, unsigned_abs};
ghost use Rattle.rules.specs.Settlement.{line_of, pays, rise, worth};
ghost use Rattle.portfolio.specs.Fitting.{is_fit, Payable};

use crate::fixing::Fixing;
use conventions::{Convention, Question};
use rules::hedge::{Hedge, Line};
use terms::rate::Rate;
use terms::rounding::{gain, payment};

// A hedge that can be valued and settled.
#[derive(Clone, Copy)]
pub(crate) struct FitHedge {
    pub(crate) hedge: Hedge,
    ghost fit: { is_fit hedge ≡ true },
}

impl FitHedge {
    // The rise of the rate since the hedge was last settled.
    fn rise(self, rate: Rate) -> i32
        ensures { result ≡ rise rate.units self.hedge }
    {
        rate.units() as i32 - self.hedge.settled as i32
    }

    fn worth(self, rate: Rate) -> i64
        ensures value { result ≡ worth rate.units self.hedge }
        ensures small { unsigned_abs result ≤ 2000000000000000 }
    {
        gain(self.hedge.deal.dollars, self.rise(rate))
    }

    // What the hedge adds to an institution's value.
    pub(crate) fn share(self, institution: u32, rate: Rate) -> i64
        ensures value { result ≡ (if self.hedge.live && self.hedge.deal.institution == institution then worth rate.units self.hedge else pos 0) }
        ensures small { unsigned_abs result ≤ 2000000000000000 }
    {
        if self.hedge.live && self.hedge.deal.institution == institution {
            self.worth(rate)
        } else {
            0
        }
    }

    // The payment that settles the hedge.
    pub(crate) fn line(self, rate: Rate) -> Line
        ensures value { result ≡ line_of rate.units self.hedge }
        ensures payable { Payable result }
    {
        let deal = self.hedge.deal;
        Line {
            hedge: deal.number,
            institution: deal.institution,
            centavos: payment(deal.dollars, self.rise(rate)),
        }
    }

    // Whether the convention settles the hedge.
    pub(crate) fn is_paid<C: Convention>(self, convention: &C, fixing: Fixing) -> bool
        ensures { result ≡ pays (C.Convention.meaning convention.now) fixing.day fixing.rate.units self.hedge }
    {
        let question = Question {
            day: fixing.day,
            days_since: fixing.day.saturating_sub(self.hedge.since),
            rise: self.rise(fixing.rate),
            closing: self.hedge.deal.maturity == fixing.day,
        };
        convention.decide(question).settles()
    }
}
