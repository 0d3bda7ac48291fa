// A house driven call by call with its live ticket in hand. The law stands after each call.
#![tactic(auto)]

pub mod asking;
pub mod calling;
pub mod holding;
pub mod log;
pub mod opening;
pub mod request;
pub mod room;
pub mod settling;
