//! What holds of evaluation itself: nothing runs here.

ghost use Rattle.bqn_meaning.specs.Advancing.{LargerBudgetsGoOn, RunsAdvance};
ghost use Rattle.bqn_meaning.specs.BlockNumbers.{EvaluationsMeetTheirBlocks};

/// Whatever a line of a session, or a program, does: more may be written, and fewer steps are left.
pub fn runs_advance()
    ensures { RunsAdvance }
{}

/// A program that ends within its budget does the same within any larger one, and one that is spent
/// has written a front of what it writes within a larger one.
pub fn larger_budgets_go_on()
    ensures { LargerBudgetsGoOn }
{}

/// The number by which an evaluation asks for a block is that of the block in the table, in the line
/// that has the block and in all lines after it.
pub fn evaluations_meet_their_blocks()
    ensures { EvaluationsMeetTheirBlocks }
{}
