ghost use Rattle.std.specs.Prelude.{◌≡◌, ◌-◌, ◌*◌, ◌/◌, ◌<◌, ◌≤◌, length, sum};
ghost use Rattle.std.specs.List.{AllByRecursion};
ghost use Rattle.tie_rules.specs.Meanings.{pro_rata};
ghost use Rattle.tie_rules.specs.Rules.{one_more_each, parts};

use crate::check::checked;
use crate::rule::TieRule;
use terms::refusal::Refusal;

// Each gets its part of the dollars left, rounded down; the dollars still missing go one each to the earliest received.
#[derive(Clone, Copy)]
pub struct ProRata;

impl TieRule for ProRata {
    ghost meaning = { λ _. pro_rata };

    fn share(&self, amounts: &[u32], left: u32, shares: &mut [u32]) -> Result<(), Refusal> {
        let total = checked(amounts, left, shares.len())?;
        let missing = write_parts(amounts, left, total, shares);
        add_one_each(missing as usize, shares);
        Ok(())
    }
}

// Writes each amount's part, and returns the dollars still missing.
fn write_parts(amounts: &[u32], left: u32, total: u64, shares: &mut [u32]) -> u32
    requires places { length amounts.now ≡ length shares.old }
    requires total { total ≡ sum amounts.now }
    requires short { left < total }
    ensures missing { result ≡ left - sum (parts left total amounts.now) }
    ensures shares { shares.new ≡ parts left total amounts.now }
{
    let mut missing = left;
    for (i, amount) in amounts.iter().enumerate() {
        let share = part(left, *amount, total);
        shares[i] = share;
        missing -= share;
    }
    missing
}

fn part(left: u32, amount: u32, total: u64) -> u32
    requires { left < total }
    ensures { result ≡ left * amount / total }
{
    (u64::from(left) * u64::from(amount) / total) as u32
}

fn add_one_each(count: usize, shares: &mut [u32])
    requires count { count ≤ length shares.old }
    requires small { AllByRecursion (λ s. s < 2000000000) shares.old }
    ensures { shares.new ≡ one_more_each count shares.old }
{
    for share in shares[..count].iter_mut() {
        *share += 1;
    }
}
