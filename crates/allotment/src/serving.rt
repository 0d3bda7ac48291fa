ghost use Rattle.std.specs.Prelude.{◌≡◌, ◌-◌, ◌≤◌, true, map, length};
ghost use Rattle.std.specs.List.{list_all};
ghost use Rattle.rules.specs.Allotment.{named, served};
ghost use Rattle.rules.specs.Books.{total as total_of};
ghost use Rattle.allotment.specs.Allotting.{in_range};
ghost use Rattle.tie_rules.specs.Sharing.{is_dollars};

use crate::{MILLION, MOST_BIDS};
use rules::auction::Bid;
use tie_rules::rule::TieRule;

// Writes the dollars that each bid names.
fn name_dollars(group: &[Bid], amounts: &mut [u32])
    requires placed { length group.now ≡ length amounts.old }
    requires ranged { list_all in_range group.now ≡ true }
    ensures { amounts.new ≡ map named group.now }
{
    for (i, bid) in group.iter().enumerate() {
        amounts[i] = MILLION * bid.millions;
    }
}

fn total_of(amounts: &[u32]) -> u64
    requires { length amounts.now ≤ 64 }
    ensures { result ≡ total_of amounts.now }
{
    amounts.iter().map(|amount| u64::from(*amount)).sum()
}

// Gives the bids at one price what they name if that fits; otherwise the tie rule shares what is left among them.
fn serve<T: TieRule>(tie_rule: &T, amounts: &[u32], total: u64, left: u32, dollars: &mut [u32])
    requires few { length amounts.now ≤ 64 }
    requires placed { length amounts.now ≡ length dollars.old }
    requires ranged { list_all is_dollars amounts.now ≡ true }
    requires summed { total ≡ total_of amounts.now }
    requires most { left ≤ 2000000000 }
    ensures { dollars.new ≡ served (T.TieRule.meaning tie_rule.now) left amounts.now }
{
    if total <= u64::from(left) {
        dollars.copy_from_slice(amounts);
    } else if left == 0 {
        dollars.fill(0);
    } else {
        let _ = tie_rule.share(amounts, left, dollars);
    }
}

fn rest_of(left: u32, total: u64) -> u32
    ensures { result ≡ left - total }
{
    u64::from(left).saturating_sub(total) as u32
}

// Writes what the bids at one price get, and answers what they leave.
pub(crate) fn serve_group<T: TieRule>(
    tie_rule: &T,
    group: &[Bid],
    left: u32,
    dollars: &mut [u32],
) -> u32
    requires few { length group.now ≤ 64 }
    requires placed { length group.now ≡ length dollars.old }
    requires ranged { list_all in_range group.now ≡ true }
    requires most { left ≤ 2000000000 }
    ensures written { dollars.new ≡ served (T.TieRule.meaning tie_rule.now) left (map named group.now) }
    ensures rest { result ≡ left - total_of (map named group.now) }
{
    let mut room = [0; MOST_BIDS];
    let amounts = &mut room[..group.len()];
    name_dollars(group, amounts);
    let total = total_of(amounts);
    serve(tie_rule, amounts, total, left, dollars);
    rest_of(left, total)
}
