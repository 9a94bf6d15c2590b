//! What holds of the grammar itself: nothing runs here.

ghost use Rattle.bqn_syntax.specs.grammar.Grammar.{OnlyWellTreesAreFound, TreesAreUnique, WellTreesAreFound};

/// Each well tree is found from every token list that spells it.
#[tactic(auto, using(crate::proofs::found::WellTrees::found_laws))]
pub fn well_trees_are_found()
    ensures { WellTreesAreFound }
{}

/// A tree that is found is well, and the tokens spell it.
#[tactic(auto, using(crate::proofs::only::WellTrees::only_laws))]
pub fn only_well_trees_are_found()
    ensures { OnlyWellTreesAreFound }
{}

/// A token list is spelled by at most one well tree.
#[tactic(auto, using(crate::proofs::found::WellTrees::found_laws))]
pub fn trees_are_unique()
    ensures { TreesAreUnique }
{}
