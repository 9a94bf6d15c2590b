//! The laws of the grammar: each well tree is found, what is found is well, and no token list has two trees.
#![tactic(auto)]

mod laws;

pub use laws::{only_well_trees_are_found, trees_are_unique, well_trees_are_found};
