ghost use Rattle.std.specs.Prelude.{◌≡◌, ◌≤◌, unsigned_abs};
ghost use Rattle.rules.specs.Settlement.{value_of};
ghost use Rattle.portfolio.specs.View.{placed_of};

use crate::fit::FitHedge;
use crate::portfolio::Portfolio;
use terms::rate::Rate;

impl Portfolio {
    // Over an institution's open hedges, dollars times the rise of the rate since the last settlement.
    pub fn value_of(&self, institution: u32, rate: Rate) -> i64
        ensures value { result ≡ value_of rate.units (placed_of self.now) institution }
        ensures small { unsigned_abs result ≤ 256000000000000000 }
    {
        let mut sum = 0;
        for hedge in self.on_places() {
            sum += FitHedge { hedge: *hedge }.share(institution, rate);
        }
        sum
    }
}
