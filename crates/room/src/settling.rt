ghost use Rattle.std.specs.Prelude.{◌≡◌, ◌++◌, take, drop};
ghost use Rattle.rules.specs.declared.call.Call.TheVariants.{Terminate};
ghost use Rattle.room.specs.Rooms.{Turns, told_by, lines_told};

use crate::room::Room;
use accounts::Accounts;
use conventions::Convention;
use rules::call::{Accepted, Answer};
use rules::hedge::Line;
use tie_rules::rule::TieRule;

// The most lines that one call tells: a penalty for each institution and a payment for each hedge.
pub const MOST_LINES: usize = 144;

impl<A: Accounts, T: TieRule, C: Convention> Room<A, T, C> {
    pub(crate) fn terminate(&mut self, hedge: i64, lines: &mut [Line; MOST_LINES]) -> Answer
        ensures turns { Turns A.Accounts.balances A.Accounts.free T.TieRule.meaning C.Convention.meaning self.old (Terminate hedge) (told_by (Terminate hedge) result lines.new) self.new }
        ensures later { lines.new ≡ take (lines_told (Terminate hedge) result) lines.new ++ drop (lines_told (Terminate hedge) result) lines.old }
    {
        let line = self.house.terminate(hedge)?;
        lines[0] = line;
        Ok(Accepted::Terminated(line))
    }
}
