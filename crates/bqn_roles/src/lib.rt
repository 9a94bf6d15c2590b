//! The roles of names, and the partners of brackets.
#![tactic(auto)]

mod brackets;
mod error;
mod roles;

pub use brackets::{Groups, nest};
pub use error::NestError;
pub use roles::role;
