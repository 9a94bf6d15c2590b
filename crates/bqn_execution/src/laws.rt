//! What holds of the definitions themselves: nothing runs here.

ghost use Rattle.bqn_execution.specs.Formed.{VerifiedCodeFindsWhatItNames};
ghost use Rattle.bqn_execution.specs.Sureness.{VerifiedCodeIsNeverStuck};
ghost use Rattle.bqn_execution.specs.Uniform.{OutputMakesNoDifference};

/// Verified code, by itself or behind other verified codes, is never stuck: each instruction finds
/// its operands on the stack, and the constant, the pattern or the block that it names.
#[tactic(auto, using(crate::proofs::SoundTables::sure_laws))]
pub fn verified_code_is_never_stuck()
    ensures { VerifiedCodeIsNeverStuck }
{}

/// What was written before makes no difference to what code does: neither to the answer, nor to the
/// variables and the steps that are left, nor to the bytes that it adds.
#[tactic(auto, using(crate::proofs::Uniformity::uniform_laws))]
pub fn output_makes_no_difference()
    ensures { OutputMakesNoDifference }
{}

/// In a run of verified code, by itself or behind other verified codes, each look-up names the body
/// of its environment and finds its slot, each block value has its block, of a fitting class, and an
/// environment of the body in which that block stands, and each operand stands in a modifier. Code,
/// calls and programs lead from states where this holds to states where it holds. That a given value
/// answers no block, modifier or namespace but from its arguments and operands is a premise: it is
/// owed with the rows of arrays and with the modifiers.
#[tactic(auto, using(crate::proofs::KeptStates::finds_laws))]
pub fn verified_code_finds_what_it_names()
    ensures { VerifiedCodeFindsWhatItNames }
{}
