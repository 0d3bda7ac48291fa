ghost use Rattle.house.specs.Calls.{Made};

use crate::house::House;
use accounts::Accounts;
use book::book::Book;
use conventions::Convention;
use terms::plan::Plan;
use tie_rules::rule::TieRule;

impl<A: Accounts, T: TieRule, C: Convention> House<A, T, C> {
    // A house made of a checked plan, which cannot be refused.
    pub fn new(plan: Plan, accounts: A, tie_rule: T, convention: C) -> Self
        ensures { Made plan accounts tie_rule convention result }
    {
        House {
            accounts,
            tie_rule,
            convention,
            book: Book::new(plan),
        }
    }
}
