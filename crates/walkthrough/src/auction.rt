// Bids, and what each gets of the dollars offered.
use std::alloc::{AllocError, AllocFailed, Global};
use std::{fmt, io};
use terms::refusal::Refusal;
use tie_rules::pro_rata::ProRata;
use tie_rules::rule::TieRule;

// The bids at one rate, in order of receipt: institutions and whole millions.
pub struct Price {
    pub rate: i32,
    pub bids: &'static [(u8, u32)],
}

// A hedge, with the rate and the day of its last settlement, or of its auction before any.
#[derive(Clone, Copy)]
pub struct Hedge {
    pub number: usize,
    pub institution: u8,
    pub dollars: u32,
    pub settled: i32,
    pub since: u32,
}

// How the bids at one rate are met.
#[derive(Clone, Copy, PartialEq, Eq)]
pub enum Met {
    Whole,
    Shared,
    NothingLeft,
}

impl fmt::Display for Met {
    fn fmt<W: fmt::Write>(&self, f: &mut fmt::Formatter<W>) -> fmt::Result {
        match self {
            Met::Whole => write!(f, "all are met"),
            Met::Shared => write!(
                f,
                "shared by amount, whole dollars rounded down, the missing ones to the earliest"
            ),
            Met::NothingLeft => write!(f, "none is met"),
        }
    }
}

#[derive(Debug, Drop)]
pub enum Stopped {
    NoMemory,
    NoOutput(io::Error),
    Refused(Refusal),
}

impl From<io::Error> for Stopped {
    fn from(why: io::Error) -> Stopped {
        Stopped::NoOutput(why)
    }
}

impl From<AllocError> for Stopped {
    fn from(_: AllocError) -> Stopped {
        Stopped::NoMemory
    }
}

impl<T: Drop> From<AllocFailed<T>> for Stopped {
    fn from(_: AllocFailed<T>) -> Stopped {
        Stopped::NoMemory
    }
}

impl From<Refusal> for Stopped {
    fn from(why: Refusal) -> Stopped {
        Stopped::Refused(why)
    }
}

pub const MILLION: u32 = 1_000_000;

// The dollars that each bid names.
pub(crate) fn named(heap: Global, price: &Price) -> Result<Vec<u32>, AllocError> {
    let mut amounts = Vec::new(heap);
    for (_, millions) in price.bids {
        amounts.push(millions.saturating_mul(MILLION))?;
    }
    Ok(amounts)
}

pub(crate) fn total(amounts: &[u32]) -> u64 {
    amounts
        .iter()
        .fold(0, |sum, amount| sum.saturating_add(u64::from(*amount)))
}

// What the bids at one rate get of the dollars left, and how.
pub(crate) fn allot(heap: Global, amounts: &[u32], left: u32) -> Result<(Met, Vec<u32>), Stopped> {
    if total(amounts) <= u64::from(left) {
        return Ok((Met::Whole, amounts.to_vec(heap)?));
    }
    let mut shares = vec![in heap; 0u32; amounts.len()]?;
    if left == 0 {
        return Ok((Met::NothingLeft, shares));
    }
    ProRata.share(amounts, left, shares.as_mut_slice())?;
    Ok((Met::Shared, shares))
}
