ghost use Rattle.std.specs.Prelude.{◌≡◌};
ghost use Rattle.rules.specs.Settlement.{turned};

use rules::hedge::Hedge;
use terms::rate::Rate;

// A day, and the rate at which hedges are settled on it.
#[derive(Clone, Copy)]
pub(crate) struct Fixing {
    pub(crate) day: u32,
    pub(crate) rate: Rate,
}

impl Fixing {
    // A paid hedge is settled at the rate, and one that is shut is open no more.
    pub(crate) fn turn(self, hedge: &mut Hedge, paid: bool, shut: bool)
        ensures { hedge.new ≡ turned paid shut self.day self.rate.units hedge.old }
    {
        if paid {
            hedge.settled = self.rate.units();
            hedge.since = self.day;
        }
        hedge.live = hedge.live && !shut;
    }
}
