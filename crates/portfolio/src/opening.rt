ghost use Rattle.std.specs.Prelude.{◌≡◌, [], length};
ghost use Rattle.portfolio.specs.View.{placed_of};

use crate::portfolio::{MOST_HEDGES, Portfolio};
use rules::hedge::Hedge;

impl Portfolio {
    // No hedge on any place, and no number given.
    pub fn new() -> Portfolio
        ensures hedges { placed_of result ≡ [] }
        ensures numbered { result.numbered ≡ 0 }
    {
        Portfolio {
            hedges: [Hedge::default(); MOST_HEDGES],
            placed: 0,
            numbered: 0,
        }
    }

    // How many hedges stand on places, open or closed since the last settlement.
    pub fn placed(&self) -> usize
        ensures { result ≡ length (placed_of self.now) }
    {
        self.placed
    }

    // How many numbers were given.
    pub fn numbered(&self) -> u32
        ensures { result ≡ self.now.numbered }
    {
        self.numbered
    }
}
