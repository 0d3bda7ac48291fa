ghost use Rattle.std.specs.Prelude.{◌≡◌, ◌≤◌, length, Ok, sum};
ghost use Rattle.std.specs.List.{AllZip};
ghost use Rattle.terms.specs.Refusals.{answered, unless_refused};
ghost use Rattle.tie_rules.specs.Sharing.{Sharing, refusal};

use terms::refusal::Refusal;

// Shares the dollars left among amounts that tie, given in order of receipt.
pub trait TieRule {
    ghost meaning: { Self → Sharing };

    fn share(&self, amounts: &[u32], left: u32, shares: &mut [u32]) -> Result<(), Refusal>
        ensures answer { result ≡ answered (refusal amounts.now left (length shares.old)) tt }
        ensures shares { shares.new ≡ unless_refused (refusal amounts.now left (length shares.old)) ((meaning self.now).shares amounts.now left) shares.old };
}

// Whatever the rule, the shares total the dollars left, and none is above its amount.
fn shared<T: TieRule>(
    rule: &T,
    amounts: &[u32],
    left: u32,
    shares: &mut [u32],
) -> Result<(), Refusal>
    ensures whole { result ≡ Ok tt → sum shares.new ≡ left }
    ensures within { result ≡ Ok tt → AllZip ◌≤◌ shares.new amounts.now }
{
    rule.share(amounts, left, shares)
}
