ghost use Rattle.std.specs.Prelude.{◌≡◌, ◌*◌, ◌≤◌, ℤ, pos, ◌-ℤ◌, ◌*ℤ◌, unsigned_abs};
ghost use Rattle.terms.specs.Rounding.{rounded, rounded_up, requirement_of};

use crate::percent::Percent;

// A hundredth, half a unit away from nought, on both sides of nought alike.
pub fn hundredth(amount: i64) -> i64
    ensures value { result ≡ rounded amount }
    ensures near { unsigned_abs (pos 100 *ℤ result -ℤ amount) ≤ 50 }
{
    let whole = amount / 100;
    let rest = amount % 100;
    if rest >= 50 {
        whole + 1
    } else if rest <= -50 {
        whole - 1
    } else {
        whole
    }
}

// What dollars gain by a rise of the rate, in ten-thousandths of a peso.
// Both factors have 32 bits, so the product has 64.
pub fn gain(dollars: u32, rise: i32) -> i64
    ensures { result ≡ pos dollars *ℤ rise }
{
    i64::from(dollars) * i64::from(rise)
}

// The centavos of a payment line: dollars times the signed rise of the rate, in ten-thousandths of a peso.
pub fn payment(dollars: u32, rise: i32) -> i64
    ensures { result ≡ rounded (pos dollars *ℤ rise) }
{
    hundredth(gain(dollars, rise))
}

fn hundredth_up(amount: u64) -> u64
    ensures { result ≡ rounded_up amount }
{
    amount.div_ceil(100)
}

// The part of a loss, rounded up; a hundredth of any i64 leaves room for 100 percent.
fn part_of(centavos: u64, part: Percent) -> u64
    requires { centavos ≤ 92233720368547759 }
    ensures { result ≡ rounded_up (centavos * part.value) }
{
    hundredth_up(centavos * u64::from(part.value))
}

// What a value asks for as a guarantee: its loss in centavos rounded up, and of that the part, rounded up.
pub fn requirement(value: i64, part: Percent) -> u64
    ensures { result ≡ requirement_of part.value value }
{
    if value >= 0 {
        return 0;
    }
    part_of(hundredth_up(value.unsigned_abs()), part)
}
