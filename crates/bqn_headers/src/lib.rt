//! Headers of bodies, and the classes of blocks.
#![tactic(auto)]

mod argument;
mod class;
mod element;
mod error;
mod form;
mod groups;
mod heading;
mod lists;
mod name;
mod queue;
#[cfg(test)]
mod tests;

pub use class::{BodyMarks, block_class};
pub use error::HeadError;
pub use heading::header;
