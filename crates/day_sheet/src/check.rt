ghost use Rattle.day_sheet.specs.Groups.{OneSpelling};
ghost use Rattle.day_sheet.specs.Verdicts.{Verdict, OneVerdict, OneList, OneReadings};
ghost use Rattle.day_sheet.specs.Writer.{ReadsBack, WritesAgain};

use crate::fault::Fault;
use crate::reader::Reader;

fn count_records(sheet: &[u8]) -> Result<usize, Fault>
    ensures { Verdict sheet.now result }
{
    let mut records = 0;
    for placed in Reader::new(sheet) {
        records = placed?.number;
    }
    Ok(records)
}

// How many records the sheet has, or its first fault. The verdict is the only one, and so is the list of records;
// what is written is read back, and what is read is written with the same bytes.
pub fn check(sheet: &[u8]) -> Result<usize, Fault>
    ensures verdict { Verdict sheet.now result }
    ensures alone { OneVerdict }
    ensures list { OneList }
    ensures spelling { OneSpelling }
    ensures readings { OneReadings }
    ensures back { ReadsBack }
    ensures again { WritesAgain }
{
    count_records(sheet)
}
