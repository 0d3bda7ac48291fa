// The day and the rate that a fix names.
#[derive(Clone, Copy)]
pub struct Fixing {
    pub day: i64,
    pub rate: i64,
}
