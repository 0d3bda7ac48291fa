ghost use Rattle.room.specs.Opening.{Opens, Closes};

use crate::holding::spend;
use crate::room::Room;
use accounts::Accounts;
use conventions::Convention;
use house::house::House;
use terms::plan::Plan;
use tie_rules::rule::TieRule;

impl<A: Accounts, T: TieRule, C: Convention> Room<A, T, C> {
    // A house just made, with no ticket in hand.
    pub fn new(plan: Plan, accounts: A, tie_rule: T, convention: C) -> Self
        ensures { Opens A.Accounts.balances A.Accounts.free T.TieRule.meaning C.Convention.meaning plan accounts tie_rule convention result }
    {
        Self::furnished(plan, accounts, tie_rule, convention)
    }

    fn furnished(plan: Plan, accounts: A, tie_rule: T, convention: C) -> Self
        ensures { Opens A.Accounts.balances A.Accounts.free T.TieRule.meaning C.Convention.meaning plan accounts tie_rule convention result }
    {
        Room {
            house: House::new(plan, accounts, tie_rule, convention),
            hand: None,
        }
    }

    // Voids a ticket that is still in hand, and gives the house back.
    pub fn close(self) -> House<A, T, C>
        ensures { Closes A.Accounts.balances A.Accounts.free T.TieRule.meaning C.Convention.meaning self result }
    {
        let Room { mut house, hand } = self;
        spend(&mut house, hand);
        house
    }
}
