ghost use Rattle.std.specs.Prelude.{◌≡◌, ◌≤◌, length};

use crate::percent::Percent;

// What a house is made by: its starting day, the guarantee part of a loss, and its holidays.
// Only a checked plan can be made, so a house made of one cannot be refused.
#[derive(Clone, Copy)]
pub struct Plan {
    pub(crate) start: u32,
    pub(crate) part: Percent,
    pub(crate) holidays: [i64; 64],
    pub(crate) count: usize,
    ghost dated: { start ≤ 30314 },
    ghost sized: { length holidays ≡ 64 },
    ghost few: { count ≤ 64 },
}
