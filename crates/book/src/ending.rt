ghost use Rattle.std.specs.Prelude.{◌≡◌, ◌≤◌, if◌then◌else◌, Ok, Err, nat_eq};
ghost use Rattle.terms.specs.declared.refusal.Refusal.TheVariants.{NoFixYet};
ghost use Rattle.terms.specs.Rates.{rate_answer};
ghost use Rattle.book.specs.Tests.{EndJudged};
ghost use Rattle.book.specs.View.{Ends};

use crate::book::Book;
use rules::hedge::Line;
use terms::rate::Rate;
use terms::refusal::Refusal;

// The rate of the last fix.
fn last_rate(rate: u32) -> Result<Rate, Refusal>
    requires { rate ≤ 999999 }
    ensures { rate_answer result ≡ (if nat_eq rate 0 then Err NoFixYet else Ok rate) }
{
    Rate::try_from(i64::from(rate)).map_err(|_| Refusal::NoFixYet)
}

impl Book {
    // The rate at which the hedge is closed.
    fn ending_rate(&self, free: usize, hedge: i64) -> Result<Rate, Refusal>
        ensures { EndJudged free self.now hedge result }
    {
        if free == 0 {
            return Err(Refusal::NoFreePosting);
        }
        if !self.portfolio.is_open(hedge) {
            return Err(Refusal::HedgeNotOpen);
        }
        last_rate(self.rate)
    }

    // Closes an open hedge at the current rate, and answers its line.
    pub fn terminate(&mut self, free: usize, hedge: i64) -> Result<Line, Refusal>
        ensures { Ends free self.old hedge result self.new }
    {
        let rate = self.ending_rate(free, hedge)?;
        self.portfolio
            .terminate(hedge, self.day, rate)
            .ok_or(Refusal::HedgeNotOpen)
    }
}
