ghost use Rattle.std.specs.Prelude.{◌≡◌, Decides};
ghost use Rattle.day_sheet.specs.Holdings.{letter_of, record_tail};
ghost use Rattle.day_sheet.specs.Parts.{NumbersOf, PartsOf, RunOf, asked};

use crate::fields::{PRICE_RAISED, check_run};
use crate::letter::{Ending, Letter};
use crate::record::Record;
use terms::refusal::Refusal;

// What a record is written from: its letter, the numbers that the letter asks for at the front of four, more numbers, and bytes as they are.
#[derive(Clone, Copy)]
pub struct Parts<'a> {
    pub letter: Letter,
    pub numbers: [i64; 4],
    pub more: &'a [i64],
    pub tail: &'a [u8],
}

impl<'a> Record<'a> {
    fn letter(&self) -> Letter
        ensures { result ≡ letter_of self.now }
    {
        match self {
            Record::Start { .. } => Letter::Start,
            Record::Admit { .. } => Letter::Admit,
            Record::Announce { .. } => Letter::Announce,
            Record::Bid { .. } => Letter::Bid,
            Record::Seal => Letter::Seal,
            Record::Publish => Letter::Publish,
            Record::Void => Letter::Void,
            Record::Fix { .. } => Letter::Fix,
            Record::Lodge { .. } => Letter::Lodge,
            Record::Release { .. } => Letter::Release,
            Record::Terminate { .. } => Letter::Terminate,
        }
    }

    // A price that cannot be raised has too many groups.
    fn numbers(&self) -> Result<[i64; 4], Refusal>
        ensures { NumbersOf self.now result }
    {
        Ok(match *self {
            Record::Start { day, percent, .. } => [day, percent, 0, 0],
            Record::Admit { institution } => [institution, 0, 0, 0],
            Record::Announce {
                kind,
                offer,
                cap,
                maturity,
            } => [kind, offer, cap, maturity],
            Record::Bid {
                institution,
                price,
                millions,
                ..
            } => {
                let raised = price.checked_add(PRICE_RAISED).ok_or(Refusal::BadNumber)?;
                [institution, raised, millions, 0]
            }
            Record::Seal | Record::Publish | Record::Void => [0; 4],
            Record::Fix { day, rate } => [day, rate, 0, 0],
            Record::Lodge {
                institution,
                centavos,
            }
            | Record::Release {
                institution,
                centavos,
            } => [institution, centavos, 0, 0],
            Record::Terminate { hedge } => [hedge, 0, 0, 0],
        })
    }

    fn tail(&self) -> &'a [u8]
        ensures { result.now ≡ record_tail self.now }
    {
        match self {
            Record::Start { holidays, .. } => holidays.bytes,
            Record::Bid { reference, .. } => reference,
            _ => &[],
        }
    }
}

impl<'a> TryFrom<Record<'a>> for Parts<'a> {
    type Error = Refusal;

    ghost try_from_gives = { PartsOf };

    fn try_from(record: Record<'a>) -> Result<Parts<'a>, Refusal> {
        Ok(Parts {
            letter: record.letter(),
            numbers: record.numbers()?,
            more: &[],
            tail: record.tail(),
        })
    }
}

impl<'a> Parts<'a> {
    // The numbers that the letter asks for.
    pub(crate) fn asked(&self) -> &[i64]
        ensures { result.now ≡ asked self.now }
    {
        &self.numbers[..self.letter.numbers()]
    }

    // Whether the holidays of a start are numbers, as they stand.
    pub(crate) fn holidays_hold(&self) -> bool
        ensures { Decides result (RunOf self.now.letter self.now.tail.now) }
    {
        match self.letter.ending() {
            Ending::Holidays => check_run(self.tail).is_ok(),
            _ => true,
        }
    }
}
