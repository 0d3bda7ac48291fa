ghost use Rattle.std.specs.Prelude.{◌≡◌, ℕ, ◌<◌, true, not, [], ◌∷◌, map, filter, MatchOption, slice_index_or};
ghost use Rattle.rules.specs.Settlement.{line_of, of_number, turned};
ghost use Rattle.portfolio.specs.Ending.{Ended, OpenAt, all_ended_at, none_open};
ghost use Rattle.portfolio.specs.Fitting.{is_fit, no_hedge, Payable};
ghost use Rattle.portfolio.specs.View.{placed_of};

use crate::fit::FitHedge;
use crate::fixing::Fixing;
use crate::portfolio::Portfolio;
use rules::hedge::{Hedge, Line};
use terms::rate::Rate;

// Settles and closes an open hedge, and answers its line.
fn end_one(hedge: &mut Hedge, fixing: Fixing) -> Line
    requires { is_fit hedge.old ≡ true }
    ensures hedge { hedge.new ≡ turned true true fixing.day fixing.rate.units hedge.old }
    ensures line { result ≡ line_of fixing.rate.units hedge.old }
    ensures payable { Payable result }
{
    let line = FitHedge { hedge: *hedge }.line(fixing.rate);
    fixing.turn(hedge, true, true);
    line
}

impl Portfolio {
    fn open_place(&self, number: i64) -> Option<usize>
        ensures { MatchOption result (none_open number (placed_of self.now) ≡ true) (OpenAt number self.now) }
    {
        if number < 0 {
            return None;
        }
        self.on_places().iter().position(|hedge| hedge.live
            && i64::from(hedge.deal.number) == number)
    }

    // Whether there is an open hedge of that number.
    pub fn is_open(&self, number: i64) -> bool
        ensures { result ≡ not (none_open number (placed_of self.now)) }
    {
        self.open_place(number).is_some()
    }

    // Settles and closes the hedge on a place.
    fn close(&mut self, place: usize, fixing: Fixing) -> Line
        requires { place < self.old.placed }
        ensures payable { Payable result }
        ensures line { (n : ℕ) → of_number n (slice_index_or self.old.hedges place no_hedge) ≡ true → map (line_of fixing.rate.units) (filter (of_number n) (placed_of self.old)) ≡ result ∷ [] }
        ensures hedges { (n : ℕ) → of_number n (slice_index_or self.old.hedges place no_hedge) ≡ true → placed_of self.new ≡ all_ended_at n fixing.day fixing.rate.units (placed_of self.old) }
        ensures numbered { self.new.numbered ≡ self.old.numbered }
    {
        end_one(&mut self.hedges[place], fixing)
    }

    // Settles and closes the open hedge of that number, and answers its line; none without one.
    pub fn terminate(&mut self, number: i64, day: u32, rate: Rate) -> Option<Line>
        ensures ended { Ended number day rate.units (placed_of self.old) (placed_of self.new) result }
        ensures numbered { self.new.numbered ≡ self.old.numbered }
    {
        let place = self.open_place(number)?;
        Some(self.close(place, Fixing { day, rate }))
    }
}
