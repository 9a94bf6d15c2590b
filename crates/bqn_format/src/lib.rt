//! What is printed: the lines of faults and of refusals.
#![tactic(auto)]

mod lines;
mod places;

pub use lines::{error_line, refusal_line};
