//! The translation: from a tree whose names are resolved to code. What code a tree has stands in
//! `specs/`.
#![tactic(auto)]

mod blocks;
mod body_kinds;
mod body_names;
mod compiling;
mod count;
mod counting;
mod emitting;
mod error;
mod exporting;
mod gathering;
mod header;
mod key;
mod laws;
mod leads;
mod leaf;
mod parts;
mod patterns;
mod places;
mod placing;
mod pooling;
mod pools;
mod read;
mod walk;

pub use compiling::compile;
pub use error::CompileError;
pub use laws::{
    accepted_trees_are_from_sources, blocks_and_names_are_few, translated_code_is_verified,
};
