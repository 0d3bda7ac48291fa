ghost use Rattle.std.specs.Prelude.{◌≡◌, length};
ghost use Rattle.tie_rules.specs.Meanings.{by_receipt};
ghost use Rattle.tie_rules.specs.Rules.{shares_by_receipt};

use crate::check::checked;
use crate::rule::TieRule;
use terms::refusal::Refusal;

// Each takes what it can, in order of receipt.
#[derive(Clone, Copy)]
pub struct ByReceipt;

impl TieRule for ByReceipt {
    ghost meaning = { λ _. by_receipt };

    fn share(&self, amounts: &[u32], left: u32, shares: &mut [u32]) -> Result<(), Refusal> {
        checked(amounts, left, shares.len())?;
        take_in_order(amounts, left, shares);
        Ok(())
    }
}

fn take_in_order(amounts: &[u32], left: u32, shares: &mut [u32])
    requires { length amounts.now ≡ length shares.old }
    ensures { shares.new ≡ shares_by_receipt amounts.now left }
{
    let mut rest = left;
    for (i, amount) in amounts.iter().enumerate() {
        let taken = rest.min(*amount);
        shares[i] = taken;
        rest -= taken;
    }
}
