ghost use Rattle.std.specs.Prelude.{◌≡◌, ◌≤◌, length, Some, None, Ok, Err, sum};
ghost use Rattle.std.specs.List.{list_all};
ghost use Rattle.tie_rules.specs.Sharing.{Tied, is_dollars, refusal};

use terms::range::DOLLARS;
use terms::refusal::Refusal;

const MOST_AMOUNTS: usize = 64;

fn in_range(dollars: u32) -> bool
    ensures { result ≡ is_dollars dollars }
{
    DOLLARS.has(i64::from(dollars))
}

fn all_in_range(amounts: &[u32]) -> bool
    ensures { result ≡ list_all is_dollars amounts.now }
{
    amounts.iter().all(|amount| in_range(*amount))
}

fn total(amounts: &[u32]) -> u64
    requires { length amounts.now ≤ 64 }
    ensures { result ≡ sum amounts.now }
{
    amounts.iter().map(|amount| u64::from(*amount)).sum()
}

// The amounts' total, or why the sharing is refused.
pub fn checked(amounts: &[u32], left: u32, places: usize) -> Result<u64, Refusal>
    ensures { elim result [ Ok t ↦ (refusal amounts.now left places ≡ None) × (t ≡ sum amounts.now) × Tied amounts.now left × (length amounts.now ≡ places) | Err e ↦ refusal amounts.now left places ≡ Some e ] }
{
    if amounts.len() > MOST_AMOUNTS || amounts.len() != places {
        return Err(Refusal::WrongLength);
    }
    if !all_in_range(amounts) || !in_range(left) {
        return Err(Refusal::AmountOutOfRange);
    }
    let total = total(amounts);
    if u64::from(left) >= total {
        return Err(Refusal::AmountOutOfRange);
    }
    Ok(total)
}
