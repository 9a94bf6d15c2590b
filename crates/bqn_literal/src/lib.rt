//! What literals denote: numbers of 64 bits, and the text between double quotes.
#![tactic(auto)]

mod error;
mod front;
mod quoted;
mod significand;
mod spelling;
#[cfg(test)]
mod tests;
mod word;

pub use error::NumberError;
pub use quoted::string;
pub use word::number;
