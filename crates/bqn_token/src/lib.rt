//! The tokens of a source, with their places, or the reason why it is refused.
#![tactic(auto)]

mod cut;
mod error;
mod extent;
mod kinds;
mod place;
mod recent;
mod single;
mod source;
mod text;
mod words;

pub use error::TokenError;
pub use source::tokens;
