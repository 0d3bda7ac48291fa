ghost use Rattle.std.specs.Prelude.{◌≡◌, ◌+◌, ◌≤◌, length as len};
ghost use Rattle.terms.specs.Refusals.{answered, unless_refused};
ghost use Rattle.day_sheet.specs.Groups.{groups};
ghost use Rattle.day_sheet.specs.Readings.{NumberAt, AskedAt, number_by};
ghost use Rattle.day_sheet.specs.Writings.{length_in, written_at, number_refusal};

use crate::fault::Stop;
use terms::refusal::Refusal;

// A number is spelled in groups of seven bits, lowest first; the high bit is set on all but the last.
const MOST_GROUPS: usize = 9;

// A number, with the length of its spelling.
#[derive(Clone, Copy, PartialEq, Eq, Debug)]
pub struct Number {
    pub value: u64,
    pub length: usize,
}

// Why no number stands at a place: no byte is left, or a number is begun and broken.
#[derive(Clone, Copy, PartialEq, Eq, Debug)]
pub enum NoNumber {
    NoByte,
    Broken,
}

// The number in at most so many groups at the front, with the length of its spelling.
fn read_up_to(bytes: &[u8], most: usize) -> Option<(u64, usize)>
    requires { most ≤ 9 }
    ensures { result ≡ number_by most bytes.now }
{
    if most == 0 {
        return None;
    }
    let (&group, after) = bytes.split_first()?;
    if group < 128 {
        return Some((u64::from(group), 1));
    }
    let (rest, length) = read_up_to(after, most - 1)?;
    // a last group of nought would be a second spelling
    if rest == 0 {
        return None;
    }
    Some((u64::from(group) - 128 + 128 * rest, length + 1))
}

pub fn read(bytes: &[u8], at: usize) -> Result<Number, NoNumber>
    ensures { NumberAt bytes.now at result }
{
    if at >= bytes.len() {
        return Err(NoNumber::NoByte);
    }
    let read = read_up_to(&bytes[at..], MOST_GROUPS);
    let (value, length) = read.ok_or(NoNumber::Broken)?;
    Ok(Number { value, length })
}

// The number that a record asks for at a place, which lies so far after its letter.
pub(crate) fn read_asked(bytes: &[u8], at: usize, after: usize) -> Result<Number, Stop>
    ensures { AskedAt bytes.now at after result }
{
    read(bytes, at).map_err(|none| match none {
        NoNumber::NoByte => Stop::Record,
        NoNumber::Broken => Stop::Number(after),
    })
}

pub(crate) fn count(number: u64) -> usize
    ensures { result ≡ len (groups number) }
{
    if number < 128 {
        1
    } else {
        1 + count(number / 128)
    }
}

// How many groups spell the number, if nine are enough.
pub fn spelled_length(number: u64) -> Option<usize>
    ensures { result ≡ length_in number }
{
    let groups = count(number);
    (groups <= MOST_GROUPS).then_some(groups)
}

// Writes the number's groups, and returns the place after them.
pub(crate) fn put(out: &mut [u8], at: usize, number: u64) -> usize
    requires { at + len (groups number) ≤ len out.old }
    ensures next { result ≡ at + len (groups number) }
    ensures bytes { out.new ≡ written_at out.old at (groups number) }
{
    if number < 128 {
        out[at] = number as u8;
        return at + 1;
    }
    out[at] = 128 + (number % 128) as u8;
    put(out, at + 1, number / 128)
}

// The same wherever there is room, else no byte is written.
pub fn write(out: &mut [u8], at: usize, number: u64) -> Result<usize, Refusal>
    ensures answer { result ≡ answered (number_refusal (len out.old) at number) (at + len (groups number)) }
    ensures bytes { out.new ≡ unless_refused (number_refusal (len out.old) at number) (written_at out.old at (groups number)) out.old }
{
    let length = spelled_length(number).ok_or(Refusal::BadNumber)?;
    if at > out.len() || length > out.len() - at {
        return Err(Refusal::WrongLength);
    }
    Ok(put(out, at, number))
}
