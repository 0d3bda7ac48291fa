// A house: its tables beside accounts, a tie rule and a convention; tickets, the ten calls and the questions.
#![tactic(auto)]

pub mod calls;
pub mod fixing;
pub mod house;
pub mod opening;
pub mod posting;
pub mod questions;
pub mod settling;
pub mod tickets;
