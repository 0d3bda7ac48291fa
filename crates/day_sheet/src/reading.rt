ghost use Rattle.std.specs.Iterator.{at_most};
ghost use Rattle.day_sheet.specs.Sheets.{Goes, OpenedOn, ReadOn, NextIn, answers_left};

use crate::fault::{Fault, Layer};
use crate::heads::read_record;
use crate::reader::{Placed, Reader};
use terms::refusal::Refusal;

pub(crate) const MOST_BYTES: usize = 65_536;

// A sheet that is too long is not read at all.
const TOO_LONG: Fault = Fault {
    record: 0,
    place: 0,
    why: Refusal::WrongLength,
    layer: Layer::Record,
};

impl<'a> Reader<'a> {
    // A reader at the sheet's front.
    pub fn new(sheet: &'a [u8]) -> Reader<'a>
        ensures { OpenedOn sheet.entry result }
    {
        Reader {
            sheet,
            at: 0,
            records: 0,
            over: false,
        }
    }

    // Reads on by a record; a fault leaves the reader where it is.
    fn read_on(&mut self) -> Result<Placed<'a>, Fault>
        requires { Goes self.old }
        ensures { ReadOn self.old self.new result }
    {
        if self.sheet.len() > MOST_BYTES {
            return Err(TOO_LONG);
        }
        let place = self.at;
        let number = self.records + 1;
        let read = read_record(self.sheet, place, self.records == 0);
        let found = read.map_err(|stop| stop.fault(number, place))?;
        self.at = found.next;
        self.records = number;
        Ok(Placed {
            record: found.record,
            number,
            place,
        })
    }
}

// The records one after another, then the sheet's first fault; nothing after a fault, or after the last record.
impl<'a> Iterator for Reader<'a> {
    type Item = Result<Placed<'a>, Fault>;

    ghost next_gives = { NextIn };

    ghost remaining = { λ d. at_most (answers_left d) };

    fn next(&mut self) -> Option<Result<Placed<'a>, Fault>> {
        if self.over || (self.records > 0 && self.at >= self.sheet.len()) {
            return None;
        }
        let read = self.read_on();
        self.over = read.is_err();
        Some(read)
    }
}
