//! The names of a program: lists of names by their places, and the body and the slot that each
//! name of a tree refers to.
#![tactic(auto)]

mod around;
mod bindings;
mod body_names;
mod defined;
mod early;
mod error;
mod mention;
mod mentions;
mod names;
mod numbering;
mod order;
mod places;
mod resolving;
mod scope;
mod spellings;
#[cfg(test)]
mod tests;
mod used;
mod walk;

pub use body_names::BodyNames;
pub use error::ScopeError;
pub use names::{Names, NamesError};
pub use resolving::{Resolved, resolve};
pub use spellings::Spellings;
pub use used::Use;
