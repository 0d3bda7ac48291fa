ghost use Rattle.rules.specs.declared.call.Call.TheVariants.{Terminate};
ghost use Rattle.book.specs.View.{ended_or};
ghost use Rattle.house.specs.Calls.{Makes};

use crate::house::House;
use crate::posting::post_line;
use accounts::Accounts;
use conventions::Convention;
use rules::hedge::Line;
use terms::refusal::Refusal;
use tie_rules::rule::TieRule;

impl<A: Accounts, T: TieRule, C: Convention> House<A, T, C> {
    // Closes an open hedge at the current rate; answers its line, and posts it.
    pub fn terminate(&mut self, hedge: i64) -> Result<Line, Refusal>
        ensures { Makes A.Accounts.balances A.Accounts.free T.TieRule.meaning C.Convention.meaning self.old (Terminate hedge) (ended_or result) self.new }
    {
        let free = self.accounts.free_postings();
        let line = self.book.terminate(free, hedge)?;
        post_line(&mut self.accounts, line);
        Ok(line)
    }
}
