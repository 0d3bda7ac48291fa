ghost use Rattle.std.specs.Prelude.{◌≡◌};
ghost use Rattle.day_sheet.specs.Writer.{Spells, Appended, AppendedStart};

use crate::letter::Letter;
use crate::parts::Parts;
use crate::record::Record;
use terms::refusal::Refusal;

// A lent buffer, of which so many bytes are used by the sheet.
#[derive(Drop)]
pub struct Sheet<'a> {
    pub bytes: &'a mut [u8],
    pub used: usize,
}

impl<'a> Sheet<'a> {
    fn write(&mut self, parts: &Parts) -> Result<(), Refusal>
        ensures writes { Spells self.old self.new parts.now result }
        ensures buffer { self.new.bytes.ghost_name ≡ self.old.bytes.ghost_name }
    {
        self.used = parts.append(self.bytes, self.used)?;
        Ok(())
    }

    // Writes the record after the used bytes, or writes nothing.
    pub fn append(&mut self, record: Record) -> Result<(), Refusal>
        ensures writes { Appended self.old self.new «record».entry result }
        ensures buffer { self.new.bytes.ghost_name ≡ self.old.bytes.ghost_name }
    {
        let parts = Parts::try_from(record)?;
        if !parts.holidays_hold() {
            return Err(Refusal::BadNumber);
        }
        self.write(&parts)
    }

    // The same for a start with a list of holidays.
    pub fn append_start(&mut self, day: i64, percent: i64, holidays: &[i64]) -> Result<(), Refusal>
        ensures writes { AppendedStart self.old self.new day percent holidays.now result }
        ensures buffer { self.new.bytes.ghost_name ≡ self.old.bytes.ghost_name }
    {
        self.write(&Parts {
            letter: Letter::Start,
            numbers: [day, percent, 0, 0],
            more: holidays,
            tail: &[],
        })
    }
}
