// The tables of a house: what its books hold, in fixed arrays, and the calls that change them alone.
#![tactic(auto)]

pub mod admission;
pub mod auctions;
pub mod bidding;
pub mod book;
mod deals;
pub mod ending;
pub mod opening;
pub mod publication;
pub mod publishing;
pub mod questions;
pub mod standing;
