// Hedges, payment lines, and what an institution's desk holds.

// What a hedge is for its whole life.
#[derive(Clone, Copy, PartialEq, Eq, Debug, Default)]
pub struct Deal {
    pub number: u32,
    pub institution: u32,
    pub dollars: u32,
    pub assigned: u32,
    pub maturity: u32,
}

// A hedge on its place: its deal, the rate and the day of its last settlement (of its auction before any), and whether it is still open.
#[derive(Clone, Copy, PartialEq, Eq, Debug, Default)]
pub struct Hedge {
    pub deal: Deal,
    pub settled: u32,
    pub since: u32,
    pub live: bool,
}

// A payment: hedge 0 is a penalty; centavos are positive when the institution receives.
#[derive(Clone, Copy, PartialEq, Eq, Debug, Default)]
pub struct Line {
    pub hedge: u32,
    pub institution: u32,
    pub centavos: i64,
}

// Value is in dollars times units, the other two in centavos.
#[derive(Clone, Copy, PartialEq, Eq, Debug, Default)]
pub struct Desk {
    pub admitted: bool,
    pub collateral: u64,
    pub value: i64,
    pub requirement: u64,
}

// What a question for an institution answers: its balance at the accounts, and what its desk holds.
#[derive(Clone, Copy, PartialEq, Eq, Debug)]
pub struct Position {
    pub balance: i64,
    pub collateral: u64,
    pub value: i64,
    pub requirement: u64,
}
