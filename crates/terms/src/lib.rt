// The terms that every layer speaks: refusals and their numbers, the ranges of quantities, rounding,
// the calendar, and the plan of a house.
#![tactic(auto)]

pub mod calendar;
pub mod institution;
pub mod parties;
pub mod percent;
pub mod plan;
pub mod planning;
pub mod price;
pub mod range;
pub mod rate;
pub mod refusal;
pub mod rounding;
