//! Verification: whether the instructions of a code have their operands and what they name, so that
//! a machine never gets stuck on it.
#![tactic(auto)]

mod bodies;
mod counts;
mod exports;
mod heights;
mod instructions;
mod marks;
mod patterns;
mod program;
mod slots;
#[cfg(test)]
mod tests;
mod verified;
mod verifying;

pub use verified::Verified;
pub use verifying::verify;
