//! What holds of the definitions themselves: nothing runs here.

ghost use Rattle.bqn_base.specs.Laws.{RootsAreFound};

/// A whole root is found where there is one.
#[tactic(auto, using(crate::proofs::Roots::root_laws))]
pub fn roots_are_found()
    ensures { RootsAreFound }
{}
