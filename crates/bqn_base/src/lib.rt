//! The types and the rows that every other crate stands on.
#![tactic(auto)]

pub mod chr;
mod fault;
pub mod laws;
pub mod num;
mod place;
mod refusal;
mod role;
mod row;
mod status;
#[cfg(test)]
mod tests;
mod text;

pub use fault::Fault;
pub use place::Place;
pub use refusal::Refusal;
pub use role::Role;
pub use row::Row;
pub use status::Status;
pub use text::{Memory, Name, Text};
