// What each bid of an auction gets.
#![tactic(auto)]

ghost use Rattle.std.specs.Prelude.{◌≡◌, ◌*◌, length};
ghost use Rattle.terms.specs.Refusals.{answered, unless_refused};
ghost use Rattle.allotment.specs.Allotting.{allot_refused, dollars_of, Fair};

use rules::auction::Bid;
use terms::refusal::Refusal;
use tie_rules::rule::TieRule;

mod check;
mod group;
mod serving;

use crate::check::test_allotment;
use crate::group::first_group;
use crate::serving::serve_group;

// As many bids as an auction takes.
pub const MOST_BIDS: usize = 64;

pub const MILLION: u32 = 1_000_000;

// Serves one price after the other.
fn serve_all<T: TieRule>(tie_rule: &T, offer: u32, bids: &[Bid], dollars: &mut [u32])
    requires { Fair offer bids.now (length dollars.old) }
    ensures { dollars.new ≡ dollars_of (T.TieRule.meaning tie_rule.now) offer bids.now }
{
    let mut left = MILLION * offer;
    let mut start = 0;
    while let Some(group) = first_group(&bids[start..]) {
        let end = start + group.len();
        left = serve_group(tie_rule, group, left, &mut dollars[start..end]);
        start = end;
    }
}

// Writes what each bid of an auction gets, in the bids' order: prices are met in falling order while all bids at a price fit;
// the first price whose bids exceed the dollars left, if any are left, goes to the tie rule; lower prices get nought.
pub fn allot<T: TieRule>(
    tie_rule: &T,
    offer: u32,
    bids: &[Bid],
    dollars: &mut [u32],
) -> Result<(), Refusal>
    ensures answer { result ≡ answered (allot_refused offer bids.now (length dollars.old)) tt }
    ensures written { dollars.new ≡ unless_refused (allot_refused offer bids.now (length dollars.old)) (dollars_of (T.TieRule.meaning tie_rule.now) offer bids.now) dollars.old }
{
    test_allotment(offer, bids, dollars.len())?;
    serve_all(tie_rule, offer, bids, dollars);
    Ok(())
}
