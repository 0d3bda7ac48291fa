use accounts::Accounts;
use conventions::Convention;
use house::house::House;
use house::tickets::Ticket;
use tie_rules::rule::TieRule;

// A house with its one live ticket, if there is one.
pub struct Room<A: Accounts, T: TieRule, C: Convention> {
    pub(crate) house: House<A, T, C>,
    pub(crate) hand: Option<Ticket>,
}
