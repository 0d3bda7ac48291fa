ghost use Rattle.std.specs.Prelude.{◌≡◌, ◌≤◌, true, length, take};
ghost use Rattle.portfolio.specs.Fitting.{is_sound};

use rules::hedge::Hedge;

pub const MOST_HEDGES: usize = 128;

pub const MOST_NUMBERS: u32 = 100_000;

// Hedges on their places, by number, and the hedge numbers given so far.
#[derive(Drop)]
pub struct Portfolio {
    pub(crate) hedges: [Hedge; MOST_HEDGES],
    pub(crate) placed: usize,
    pub(crate) numbered: u32,
    ghost sized: { (length hedges ≡ 128) × (placed ≤ 128) × (numbered ≤ 100000) },
    ghost sound: { is_sound 0 numbered (take placed hedges) ≡ true },
}
