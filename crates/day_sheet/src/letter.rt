ghost use Rattle.std.specs.Prelude.{◌≡◌};
ghost use Rattle.day_sheet.specs.Letters.{byte_of, numbers_in, ending_of, LetterOf};

use crate::fault::Stop;

// The kinds of record, each told by its letter.
#[derive(Clone, Copy, PartialEq, Eq, Debug)]
pub enum Letter {
    Start = b'S' as isize,
    Admit = b'I' as isize,
    Announce = b'A' as isize,
    Bid = b'B' as isize,
    Seal = b'C' as isize,
    Publish = b'P' as isize,
    Void = b'V' as isize,
    Fix = b'F' as isize,
    Lodge = b'G' as isize,
    Release = b'R' as isize,
    Terminate = b'T' as isize,
}

// What follows a record's numbers, up to its end.
#[derive(Clone, Copy, PartialEq, Eq, Debug)]
pub enum Ending {
    Nothing,
    Holidays,
    Reference,
}

impl Letter {
    pub(crate) fn byte(self) -> u8
        ensures { result ≡ byte_of self }
    {
        self as u8
    }

    // How many numbers the record begins with.
    pub(crate) fn numbers(self) -> usize
        ensures { result ≡ numbers_in self }
    {
        match self {
            Letter::Start | Letter::Fix | Letter::Lodge | Letter::Release => 2,
            Letter::Admit | Letter::Terminate => 1,
            Letter::Announce => 4,
            Letter::Bid => 3,
            Letter::Seal | Letter::Publish | Letter::Void => 0,
        }
    }

    pub(crate) fn ending(self) -> Ending
        ensures { result ≡ ending_of self }
    {
        match self {
            Letter::Start => Ending::Holidays,
            Letter::Bid => Ending::Reference,
            _ => Ending::Nothing,
        }
    }
}

// A byte that is no letter's puts the record at fault.
impl TryFrom<u8> for Letter {
    type Error = Stop;

    ghost try_from_gives = { LetterOf };

    fn try_from(byte: u8) -> Result<Letter, Stop> {
        match byte {
            b'S' => Ok(Letter::Start),
            b'I' => Ok(Letter::Admit),
            b'A' => Ok(Letter::Announce),
            b'B' => Ok(Letter::Bid),
            b'C' => Ok(Letter::Seal),
            b'P' => Ok(Letter::Publish),
            b'V' => Ok(Letter::Void),
            b'F' => Ok(Letter::Fix),
            b'G' => Ok(Letter::Lodge),
            b'R' => Ok(Letter::Release),
            b'T' => Ok(Letter::Terminate),
            _ => Err(Stop::Record),
        }
    }
}
