ghost use Rattle.std.specs.Prelude.{◌≡◌, pos, OnOk};
ghost use Rattle.std.specs.List.{list_all};
ghost use Rattle.terms.specs.Ranges.{is_millions};
ghost use Rattle.terms.specs.Refusals.{answered};
ghost use Rattle.allotment.specs.Allotting.{allot_refused, in_range, Fair};

use crate::MOST_BIDS;
use rules::auction::Bid;
use terms::range::MILLIONS;
use terms::refusal::Refusal;

fn in_range(millions: u32) -> bool
    ensures { result ≡ is_millions (pos millions) }
{
    MILLIONS.has(i64::from(millions))
}

fn all_in_range(bids: &[Bid]) -> bool
    ensures { result ≡ list_all in_range bids.now }
{
    bids.iter().all(|bid| in_range(bid.millions))
}

// Tests an allotment, in the order of its refusals; one that is not refused is fair.
pub(crate) fn test_allotment(offer: u32, bids: &[Bid], places: usize) -> Result<(), Refusal>
    ensures answer { result ≡ answered (allot_refused offer bids.now places) tt }
    ensures passed { OnOk result (Fair offer bids.now places) }
{
    if bids.len() > MOST_BIDS || bids.len() != places {
        return Err(Refusal::WrongLength);
    }
    if !in_range(offer) || !all_in_range(bids) {
        return Err(Refusal::AmountOutOfRange);
    }
    Ok(())
}
