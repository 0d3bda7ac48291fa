ghost use Rattle.std.specs.Prelude.{◌≡◌, ◌+◌, ◌<◌, ◌≤◌, ◌^◌, true, length as len, nat_le};
ghost use Rattle.std.specs.List.{list_all};
ghost use Rattle.day_sheet.specs.Groups.{groups};
ghost use Rattle.day_sheet.specs.Writings.{written_at, holdable, size_of, spellings};
ghost use Rattle.day_sheet.specs.Entries.{is_long, SizeWithin};
ghost use Rattle.day_sheet.specs.Parts.{held, body_of, spelling_of, refusal_of, Judged};
ghost use Rattle.terms.specs.Refusals.{answered, unless_refused};

use crate::fields::MOST_REFERENCE;
use crate::groups;
use crate::letter::Letter;
use crate::parts::Parts;
use crate::reading::MOST_BYTES;
use terms::refusal::Refusal;

// An i64 that is not under nought has at most nine groups.
fn is_holdable(number: i64) -> bool
    ensures { result ≡ holdable number }
{
    number >= 0
}

fn all_holdable(numbers: &[i64]) -> bool
    ensures { result ≡ list_all holdable numbers.now }
{
    numbers.iter().all(|number| is_holdable(*number))
}

// How many bytes spell the numbers.
fn size_of_all(numbers: &[i64]) -> usize
    requires { size_of numbers.now < 2 ^ 64 }
    ensures { result ≡ size_of numbers.now }
{
    numbers
        .iter()
        .map(|number| groups::count(number.unsigned_abs()))
        .sum()
}

fn put_all(out: &mut [u8], at: usize, numbers: &[i64]) -> usize
    requires { at + len (spellings numbers.now) ≤ len out.old }
    ensures next { result ≡ at + len (spellings numbers.now) }
    ensures bytes { out.new ≡ written_at out.old at (spellings numbers.now) }
{
    let mut next = at;
    for number in numbers {
        next = groups::put(out, next, number.unsigned_abs());
    }
    next
}

fn put_bytes(out: &mut [u8], at: usize, bytes: &[u8]) -> usize
    requires { at + len bytes.now ≤ len out.old }
    ensures next { result ≡ at + len bytes.now }
    ensures bytes { out.new ≡ written_at out.old at bytes.now }
{
    let next = at + bytes.len();
    out[at..next].copy_from_slice(bytes);
    next
}

fn fits(used: usize, length: usize, room: usize) -> bool
    ensures { result ≡ nat_le (used + length) room }
{
    used <= room && length <= room - used
}

impl<'a> Parts<'a> {
    fn is_holdable(&self) -> bool
        ensures { result ≡ held self.now }
    {
        all_holdable(self.asked()) && all_holdable(self.more)
    }

    // A reference of more than 24 bytes.
    fn is_long(&self) -> bool
        ensures { result ≡ is_long self.now.letter self.now.tail.now }
    {
        self.letter == Letter::Bid && self.tail.len() > MOST_REFERENCE
    }

    // How many bytes the fields take, unless they are too many for any sheet.
    fn size(&self) -> Result<usize, Refusal>
        requires { held self.now ≡ true }
        ensures { SizeWithin (body_of self.now) result }
    {
        if self.more.len() > MOST_BYTES || self.tail.len() > MOST_BYTES {
            return Err(Refusal::WrongLength);
        }
        Ok(size_of_all(self.asked()) + size_of_all(self.more) + self.tail.len())
    }

    // The size of the record's fields, where there is room for it; judged are first its numbers, then its place, then its size.
    fn judge(&self, capacity: usize, used: usize) -> Result<usize, Refusal>
        ensures { Judged capacity used self.now result }
    {
        if !self.is_holdable() {
            return Err(Refusal::BadNumber);
        }
        if self.is_long() || (self.letter == Letter::Start) != (used == 0) {
            return Err(Refusal::BadRecord);
        }
        let size = self.size()?;
        let length = 1 + groups::count(size as u64) + size;
        if !fits(used, length, capacity.min(MOST_BYTES)) {
            return Err(Refusal::WrongLength);
        }
        Ok(size)
    }

    // Writes the letter, the length of the fields, and the fields.
    fn put(&self, out: &mut [u8], at: usize, size: usize) -> usize
        requires held { held self.now ≡ true }
        requires size { size ≡ len (body_of self.now) }
        requires room { at + len (spelling_of self.now) ≤ len out.old }
        ensures next { result ≡ at + len (spelling_of self.now) }
        ensures bytes { out.new ≡ written_at out.old at (spelling_of self.now) }
    {
        out[at] = self.letter.byte();
        let start = groups::put(out, at + 1, size as u64);
        let after = put_all(out, start, self.asked());
        let rest = put_all(out, after, self.more);
        put_bytes(out, rest, self.tail)
    }

    // Writes the record after the used bytes, and returns how many are used then.
    pub(crate) fn append(&self, out: &mut [u8], used: usize) -> Result<usize, Refusal>
        ensures answer { result ≡ answered (refusal_of (len out.old) used self.now) (used + len (spelling_of self.now)) }
        ensures bytes { out.new ≡ unless_refused (refusal_of (len out.old) used self.now) (written_at out.old used (spelling_of self.now)) out.old }
    {
        let size = self.judge(out.len(), used)?;
        Ok(self.put(out, used, size))
    }
}
