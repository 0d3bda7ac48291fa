ghost use Rattle.std.specs.Prelude.{◌≡◌, ◌<◌, [], MatchOption, length, take};
ghost use Rattle.allotment.specs.Groups.{group_size};

use rules::auction::Bid;

// The bids at the first price; none without a bid.
pub(crate) fn first_group(bids: &[Bid]) -> Option<&[Bid]>
    ensures { MatchOption result (bids.now ≡ []) (λ group. (group.now ≡ take (group_size bids.now) bids.now) × (0 < length group.now)) }
{
    bids.chunk_by(|bid, next| bid.price <= next.price).next()
}
