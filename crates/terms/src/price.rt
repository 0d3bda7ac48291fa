ghost use Rattle.std.specs.Prelude.{◌≡◌, not, ◌&&◌, [], ◌∷◌, pos, ◌+ℤ◌, unsigned_abs};
ghost use Rattle.terms.specs.declared.refusal.Refusal.TheVariants.{PriceOutOfRange};
ghost use Rattle.terms.specs.Ranges.{is_units, is_rate};
ghost use Rattle.terms.specs.Rates.{rate_tests, rate_answer};
ghost use Rattle.terms.specs.Refusals.{first, answered};

use crate::range::{RATES, UNITS};
use crate::rate::Rate;
use crate::refusal::Refusal;

// The rate that a maturity bid names by units over the current rate.
pub fn rate_by_units(units: i64, current: u32) -> Result<u32, Refusal>
    ensures { result ≡ answered (first ((PriceOutOfRange, not (is_units units && is_rate (units +ℤ pos current))) ∷ [])) (unsigned_abs (units +ℤ pos current)) }
{
    if !UNITS.has(units) {
        return Err(Refusal::PriceOutOfRange);
    }
    let rate = units + i64::from(current);
    Rate::try_from(rate).map(Rate::units)
}

impl TryFrom<i64> for Rate {
    type Error = Refusal;

    ghost try_from_gives = { λ units answer. rate_answer answer ≡ answered (first (rate_tests units)) (unsigned_abs units) };

    fn try_from(units: i64) -> Result<Rate, Refusal> {
        if !RATES.has(units) {
            return Err(Refusal::PriceOutOfRange);
        }
        Ok(Rate {
            units: units as u32,
        })
    }
}

impl Rate {
    pub fn units(self) -> u32
        ensures { result ≡ self.units }
    {
        self.units
    }
}
