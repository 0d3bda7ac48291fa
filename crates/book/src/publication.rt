// What publish answers: the first hedge number, or 0 for none, and how many hedges it made.
#[derive(Clone, Copy)]
pub struct Publication {
    pub first: u32,
    pub count: u32,
}
