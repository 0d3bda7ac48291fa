// The hedges of a house on their places: issued, settled, terminated, and asked for.
#![tactic(auto)]

pub mod ending;
mod fit;
mod fixing;
pub mod issuing;
pub mod opening;
pub mod portfolio;
pub mod questions;
pub mod settling;
pub mod valuing;
