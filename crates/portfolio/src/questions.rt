ghost use Rattle.std.specs.Prelude.{◌≡◌, ◌≤◌, not, length, pos, if◌then◌else◌, None, ◌==◌, int_lt, unsigned_abs};
ghost use Rattle.rules.specs.Rules.{ask, skipped};
ghost use Rattle.rules.specs.Settlement.{open_ones};
ghost use Rattle.portfolio.specs.View.{placed_of, maturing_at};

use crate::portfolio::Portfolio;
use rules::hedge::Hedge;

// A sum of ones and noughts takes no branch.
fn count_open(hedges: &[Hedge]) -> usize
    requires { length hedges.now ≤ 128 }
    ensures { result ≡ length (open_ones hedges.now) }
{
    hedges.iter().map(|hedge| usize::from(hedge.live)).sum()
}

impl Portfolio {
    pub(crate) fn on_places(&self) -> &[Hedge]
        ensures placed { result.now ≡ placed_of self.now }
        ensures few { length result.now ≤ 128 }
    {
        &self.hedges[..self.placed]
    }

    // The hedge of that number, open or closed since the last settlement.
    pub fn hedge(&self, number: i64) -> Option<Hedge>
        ensures { result ≡ (if int_lt number (pos 0) then None else ask (unsigned_abs number) (placed_of self.now)) }
    {
        if number < 0 {
            return None;
        }
        self.on_places()
            .iter()
            .find(|hedge| i64::from(hedge.deal.number) == number)
            .copied()
    }

    // How many hedges are open.
    pub fn open_count(&self) -> usize
        ensures { result ≡ length (open_ones (placed_of self.now)) }
    {
        count_open(self.on_places())
    }

    // Whether a settlement on this day would pass over the maturity day of an open hedge.
    pub fn would_skip(&self, day: i64) -> bool
        ensures { result ≡ not (length (skipped day (placed_of self.now)) == 0) }
    {
        self.on_places()
            .iter()
            .any(|hedge| hedge.live && i64::from(hedge.deal.maturity) < day)
    }

    // The dollars of the open hedges that mature on this day.
    pub fn maturing(&self, day: u32) -> u64
        ensures { result ≡ maturing_at day (placed_of self.now) }
    {
        self.on_places()
            .iter()
            .filter(|hedge| hedge.live && hedge.deal.maturity == day)
            .map(|hedge| u64::from(hedge.deal.dollars))
            .sum()
    }
}
