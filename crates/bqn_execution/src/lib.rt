//! What code means: what each instruction does with the stack, the variables and the output. Nothing
//! runs here: the definitions stand in `specs/`.
#![tactic(auto)]

mod laws;

pub use laws::{
    output_makes_no_difference, verified_code_finds_what_it_names, verified_code_is_never_stuck,
};
