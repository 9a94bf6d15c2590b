//! Values as plain lists: their relations and limits, the rows of the primitives, and calls. Nothing
//! runs here: the definitions stand in `specs/`.
#![tactic(auto)]

pub mod laws;
