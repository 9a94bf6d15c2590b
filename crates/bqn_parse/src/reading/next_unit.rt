ghost use Rattle.std.specs.Prelude.{◌≡◌, ◌∷◌, IfOk};
ghost use Rattle.bqn_parse.specs.Leftward.{ahead, rest_of};
ghost use Rattle.bqn_parse.specs.Views.{backward, unit_shown};

use crate::growth::push;
use crate::unit::Unit;
use bqn_base::Memory;

/// The next one of units that are read leftward: the last one.
#[tactic(auto, using(crate::proofs::Backward::unit_laws))]
#[inline(always)]
pub fn take<'t>(left: &mut Vec<Unit<'t>>) -> Option<Unit<'t>>
    ensures next { backward left.old.items ≡ ahead result (backward left.new.items) }
    ensures rest { backward left.new.items ≡ rest_of result (backward left.new.items) }
{
    left.pop()
}

/// A unit that was taken is next again.
#[tactic(auto, using(crate::proofs::Backward::unit_laws))]
pub fn put_back<'t>(left: &mut Vec<Unit<'t>>, unit: Unit<'t>) -> Result<(), Memory>
    ensures { IfOk result (λ done. backward left.new.items ≡ unit_shown unit.entry ∷ backward left.old.items) }
{
    push(left, unit)
}
