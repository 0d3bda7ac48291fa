ghost use Rattle.std.specs.Prelude.{◌≡◌, ◌≤◌, take, pos, ◌≤ℤ◌, slice_index_or};
ghost use Rattle.day_sheet.specs.Letters.{numbers_in};
ghost use Rattle.day_sheet.specs.Fields.{NumbersFrom, RunFrom, EndIn};
ghost use Rattle.day_sheet.specs.Holdings.{letter_of, numbers_of, BorrowsTail, FieldsIn};

use crate::fault::Stop;
use crate::groups;
use crate::letter::{Ending, Letter};
use crate::record::{Numbers, Record};

pub(crate) const MOST_REFERENCE: usize = 24;

// The numbers at the front of a record's fields, and how many bytes they take.
#[derive(Clone, Copy)]
pub struct Numbered {
    pub numbers: [i64; 4],
    pub length: usize,
}

// A record without the bytes of a number that its letter asks for is itself at fault.
fn read_numbers(bytes: &[u8], count: usize) -> Result<Numbered, Stop>
    requires { count ≤ 4 }
    ensures { NumbersFrom bytes.now count result }
{
    let mut numbers = [0; 4];
    let mut at = 0;
    for number in &mut numbers[..count] {
        let read = groups::read_asked(bytes, at, at)?;
        *number = read.value as i64;
        at += read.length;
    }
    Ok(Numbered {
        numbers,
        length: at,
    })
}

// The bytes are a run of numbers, or one of them is at fault.
pub(crate) fn check_run(bytes: &[u8]) -> Result<(), Stop>
    ensures { RunFrom bytes.now result }
{
    let mut at = 0;
    while let Ok(number) = groups::read(bytes, at) {
        at += number.length;
    }
    if at < bytes.len() {
        return Err(Stop::Number(at));
    }
    Ok(())
}

fn check_ending(ending: Ending, tail: &[u8]) -> Result<(), Stop>
    ensures { EndIn ending tail.now result }
{
    match ending {
        Ending::Holidays => check_run(tail),
        Ending::Nothing if !tail.is_empty() => Err(Stop::Record),
        Ending::Reference if tail.len() > MOST_REFERENCE => Err(Stop::Record),
        Ending::Nothing | Ending::Reference => Ok(()),
    }
}

// A price stands on the sheet with this added.
pub(crate) const PRICE_RAISED: i64 = 10_000;

fn record_of<'a>(letter: Letter, numbers: [i64; 4], tail: &'a [u8]) -> Record<'a>
    requires { letter ≡ Letter.Bid → pos 0 ≤ℤ slice_index_or numbers 1 (pos 0) }
    ensures letter { letter_of result ≡ letter }
    ensures numbers { numbers_of result ≡ take (numbers_in letter) numbers }
    ensures tail { BorrowsTail result tail.now tail.entry.ref_ptr }
{
    let [a, b, c, d] = numbers;
    match letter {
        Letter::Start => Record::Start {
            day: a,
            percent: b,
            holidays: Numbers { bytes: tail },
        },
        Letter::Admit => Record::Admit { institution: a },
        Letter::Announce => Record::Announce {
            kind: a,
            offer: b,
            cap: c,
            maturity: d,
        },
        Letter::Bid => Record::Bid {
            institution: a,
            price: b - PRICE_RAISED,
            millions: c,
            reference: tail,
        },
        Letter::Seal => Record::Seal,
        Letter::Publish => Record::Publish,
        Letter::Void => Record::Void,
        Letter::Fix => Record::Fix { day: a, rate: b },
        Letter::Lodge => Record::Lodge {
            institution: a,
            centavos: b,
        },
        Letter::Release => Record::Release {
            institution: a,
            centavos: b,
        },
        Letter::Terminate => Record::Terminate { hedge: a },
    }
}

pub(crate) fn read_fields<'a>(letter: Letter, body: &'a [u8]) -> Result<Record<'a>, Stop>
    ensures { FieldsIn letter body.now body.entry.ref_ptr result }
{
    let read = read_numbers(body, letter.numbers())?;
    let tail = &body[read.length..];
    check_ending(letter.ending(), tail).map_err(|stop| stop.later(read.length))?;
    Ok(record_of(letter, read.numbers, tail))
}
