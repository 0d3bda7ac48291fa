ghost use Rattle.std.specs.Prelude.{◌≡◌, ◌≤◌, true, length};
ghost use Rattle.day_sheet.specs.Heads.{HeadIn, RecordIn};

use crate::fault::Stop;
use crate::fields::read_fields;
use crate::groups;
use crate::groups::Number;
use crate::letter::Letter;
use crate::record::Record;

// A record's letter, and where its fields start and end.
#[derive(Clone, Copy)]
pub struct Head {
    pub letter: Letter,
    pub start: usize,
    pub end: usize,
}

// A record, and the place after it.
#[derive(Clone, Copy)]
pub struct Found<'a> {
    pub record: Record<'a>,
    pub next: usize,
}

fn read_head(sheet: &[u8], at: usize, first: bool) -> Result<Head, Stop>
    requires { length sheet.now ≤ at → first ≡ true }
    ensures { HeadIn sheet.now at first result }
{
    let &byte = sheet.get(at).ok_or(Stop::Record)?;
    let letter = Letter::try_from(byte)?;
    if (letter == Letter::Start) != first {
        return Err(Stop::Record);
    }
    let Number { value, length } = groups::read_asked(sheet, at + 1, 1)?;
    let start = at + 1 + length;
    if value > (sheet.len() - start) as u64 {
        return Err(Stop::Record);
    }
    Ok(Head {
        letter,
        start,
        end: start + value as usize,
    })
}

pub(crate) fn read_record<'a>(sheet: &'a [u8], at: usize, first: bool) -> Result<Found<'a>, Stop>
    requires { length sheet.now ≤ at → first ≡ true }
    ensures { RecordIn sheet.now sheet.entry.ref_ptr at first result }
{
    let Head { letter, start, end } = read_head(sheet, at, first)?;
    let before = start - at;
    let record = read_fields(letter, &sheet[start..end]).map_err(|stop| stop.later(before))?;
    Ok(Found { record, next: end })
}
