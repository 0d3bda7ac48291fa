ghost use Rattle.std.specs.Prelude.{◌≤◌};

use crate::record::Record;

// A sheet, and how far it has been read.
#[derive(Clone, Copy)]
pub struct Reader<'a> {
    pub(crate) sheet: &'a [u8],
    pub(crate) at: usize,
    pub(crate) records: usize,
    pub(crate) over: bool,
    ghost counted: { records ≤ at },
}

// A record with its number, from 1, and the place of its letter, from 0.
#[derive(Clone, Copy)]
pub struct Placed<'a> {
    pub record: Record<'a>,
    pub number: usize,
    pub place: usize,
}
