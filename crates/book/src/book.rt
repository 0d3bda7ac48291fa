ghost use Rattle.std.specs.Prelude.{◌≡◌, ℕ, ◌≤◌, true, length, take, slice_index_or};
ghost use Rattle.book.specs.Soundness.{no_desk, is_sound_auction};

pub use crate::standing::Standing;
use allotment::MOST_BIDS;
use portfolio::portfolio::Portfolio;
use rules::auction::Bid;
use rules::hedge::Desk;
use terms::plan::Plan;
use terms::range::PARTY_COUNT;

// Bids stand by falling price, then receipt; hedges in the portfolio, by number; desks by institution, the first for nobody.
#[derive(Drop)]
pub struct Book {
    pub(crate) plan: Plan,
    pub(crate) day: u32,
    pub(crate) rate: u32,
    pub(crate) auction: Option<Standing>,
    pub(crate) auctions: u32,
    pub(crate) bids: [Bid; MOST_BIDS],
    pub(crate) taken: usize,
    pub(crate) portfolio: Portfolio,
    pub(crate) matured: u64,
    pub(crate) desks: [Desk; PARTY_COUNT],
    ghost sized: { (length bids ≡ 64) × (length desks ≡ 17) },
    ghost few: { (taken ≤ 64) × (auctions ≤ 100000) },
    ghost dated: { (day ≤ 30314) × (rate ≤ 999999) },
    ghost sound: { is_sound_auction rate auction (take taken bids) ≡ true },
    ghost required: { (i : ℕ) → (slice_index_or desks i no_desk).requirement ≤ 2560000000000000 },
}
