ghost use Rattle.std.specs.Prelude.{length};
ghost use Rattle.std.specs.Iterator.{at_most};
ghost use Rattle.day_sheet.specs.Runs.{FirstIn};

use crate::groups;
use crate::groups::Number;
use crate::record::Numbers;

// The numbers one after another, to the end of the run or to one that is broken.
impl<'a> Iterator for Numbers<'a> {
    type Item = i64;

    ghost next_gives = { FirstIn };

    ghost remaining = { λ run. at_most (length run.bytes.now) };

    fn next(&mut self) -> Option<i64> {
        let Number { value, length } = groups::read(self.bytes, 0).ok()?;
        self.bytes = &self.bytes[length..];
        Some(value as i64)
    }
}
