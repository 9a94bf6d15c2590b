//! What holds of the definitions themselves: nothing runs here.

ghost use Rattle.bqn_compile.specs.Laws.{AcceptedTreesAreFromSources, BlocksAndNamesAreFew, TranslatedCodeIsVerified};

/// The code of a tree that comes from a source is verified.
pub fn translated_code_is_verified()
    ensures { TranslatedCodeIsVerified }
{}

/// The blocks and names of the code of a tree are at most one more than the tokens that spell it.
#[tactic(auto, using(crate::proofs::verified::blocks::BlocksAndNames::blocks_and_names_laws))]
pub fn blocks_and_names_are_few()
    ensures { BlocksAndNamesAreFew }
{}

/// A source whose tokens, tree and names are accepted has what a tree of a source has.
pub fn accepted_trees_are_from_sources()
    ensures { AcceptedTreesAreFromSources }
{}
