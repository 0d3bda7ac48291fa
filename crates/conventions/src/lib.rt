// Conventions: they decide whether a hedge is settled at a fixing.
#![tactic(auto)]

ghost use Rattle.std.specs.Prelude.{◌≡◌, true};
ghost use Rattle.conventions.specs.Conventions.{daily, at_maturity};
ghost use Rattle.conventions.specs.Deciding.{Deciding, is_settle};

// What a convention is asked of a hedge at a fixing.
#[derive(Clone, Copy, PartialEq, Eq, Debug)]
pub struct Question {
    pub day: u32,
    // since the last settlement, or since the auction where there was none
    pub days_since: u32,
    // of the rate since then
    pub rise: i32,
    pub closing: bool,
}

#[derive(Clone, Copy, PartialEq, Eq, Debug)]
pub enum Decision {
    Settle,
    Wait,
}

impl Decision {
    pub fn settles(self) -> bool
        ensures { result ≡ is_settle self }
    {
        self == Decision::Settle
    }
}

pub trait Convention {
    ghost meaning: { Self → Deciding };

    fn decide(&self, question: Question) -> Decision
        ensures { result ≡ (meaning self.now).decides question };
}

// Settles once a day has passed, or when closing.
#[derive(Clone, Copy)]
pub struct Daily;

impl Convention for Daily {
    ghost meaning = { λ _. daily };

    fn decide(&self, question: Question) -> Decision {
        if question.closing || question.days_since >= 1 {
            Decision::Settle
        } else {
            Decision::Wait
        }
    }
}

// Settles only when closing.
#[derive(Clone, Copy)]
pub struct AtMaturity;

impl Convention for AtMaturity {
    ghost meaning = { λ _. at_maturity };

    fn decide(&self, question: Question) -> Decision {
        if question.closing {
            Decision::Settle
        } else {
            Decision::Wait
        }
    }
}

// Whatever the convention, a hedge that is closing is settled.
fn decided<C: Convention>(convention: &C, question: Question) -> Decision
    ensures { question.closing ≡ true → is_settle result ≡ true }
{
    convention.decide(question)
}

#[cfg(test)]
mod tests {
    use super::*;

    #[test]
    fn decisions(rt: HostRuntime) {
        // days since, closing, whether daily settles, whether at maturity settles
        let table = [
            (0, false, false, false),
            (1, false, true, false),
            (90, false, true, false),
            (0, true, true, true),
            (1, true, true, true),
        ];
        for (days_since, closing, daily, at_maturity) in table {
            let question = Question {
                day: 100,
                days_since,
                rise: -3,
                closing,
            };
            assert_eq!(rt; Daily.decide(question).settles(), daily);
            assert_eq!(rt; AtMaturity.decide(question).settles(), at_maturity);
        }
    }
}
