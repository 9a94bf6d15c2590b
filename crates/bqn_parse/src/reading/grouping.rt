ghost use Rattle.std.specs.Prelude.{◌≡◌, IfOk, IsTrue, [], ◌∷◌, ◌++◌, map};
ghost use Rattle.std.specs.Option.{option_map};
ghost use Rattle.bqn_syntax.specs.grammar.Trees.{use_of};
ghost use Rattle.bqn_syntax.specs.grammar.Sorts.{tag};
ghost use Rattle.bqn_syntax.specs.grammar.Trees as plain;
ghost use Rattle.bqn_syntax.specs.grammar.Units as units;
ghost use Rattle.bqn_syntax.specs.grammar.Units.{alone, unit_of, closed, operand, modified, modified_twice, beside, bind_part, bound};
ghost use Rattle.bqn_parse.specs.declared.reading.grouping.Binding.TheVariants as binding;
ghost use Rattle.bqn_parse.specs.Drafts.{draft_of};
ghost use Rattle.bqn_parse.specs.Grouping.{binding_shown, grouping_shown, operand_shown, settled, uses_shown};
ghost use Rattle.bqn_parse.specs.Views.{backward, unit_shown, when};

use crate::draft::{Draft, Function, Modified, boxed, part, tag_of_draft};
use crate::growth::{push, with_room};
use crate::unit::Unit;
use bqn_base::Memory;
use bqn_syntax::{ModUse, Tag};
use sqlite_items::Boxed;
use std::alloc::Global;
use std::mem;

/// The operand that is being read, with its modifiers so far.
#[derive(Drop)]
pub enum Binding<'t> {
    Free,
    Bound(Function<'t>),
    Wanting(Boxed<Wanting<'t>>),
}

/// An operand with its modifiers so far, of which the last one wants its second operand.
#[derive(Drop)]
pub struct Wanting<'t> {
    pub function: Function<'t>,
    pub modifier: Draft<'t>,
}

/// The units so far, in order, and the operand that is being read.
#[derive(Drop)]
pub struct Grouping<'t> {
    pub units: Vec<Unit<'t>>,
    pub binding: Binding<'t>,
}

/// A part by itself.
#[inline(always)]
fn alone<'t>(first: Draft<'t>) -> Unit<'t>
    ensures { unit_shown result ≡ alone (tag (draft_of first.entry)) (draft_of first.entry) }
{
    match tag_of_draft(&first) {
        Tag::Subject => Unit::Subject(first),
        Tag::Function => Unit::Function(Function::Plain(first)),
        Tag::Mod1 | Tag::Mod2 => Unit::Alone(first),
        Tag::Nothing => Unit::Absent(first),
    }
}

/// A part with its modifiers, if there are some.
#[tactic(auto, using(bqn_syntax::specs::grammar::TreeEquations::tree_equations))]
#[inline(never)]
fn modified_unit<'t>(all: Boxed<Modified<'t>>) -> Unit<'t>
    ensures { unit_shown result ≡ unit_of (draft_of all.entry.first) (map use_of all.entry.uses.items) }
{
    if !all.get().uses.is_empty() {
        return Unit::Function(Function::Modified(all));
    }
    let Modified { first, .. } = all.into_inner();
    alone(first)
}

/// A part with its modifiers, as a unit.
#[tactic(auto, using(bqn_syntax::specs::grammar::TreeEquations::tree_equations))]
#[inline(always)]
fn unit_of<'t>(function: Function<'t>) -> Unit<'t>
    ensures { unit_shown result ≡ unit_of (operand_shown function.entry) (uses_shown function.entry) }
{
    match function {
        Function::Plain(first) => alone(first),
        Function::Modified(all) => modified_unit(all),
    }
}

/// The operand that was being read ends, if there was one; it has no end where its modifier wants another.
#[inline(always)]
pub fn closed<'t>(grouping: &mut Grouping<'t>) -> Result<bool, Memory>
    ensures units { IfOk result (λ fine. when fine (backward grouping.new.units.items) ≡ bound (grouping_shown grouping.old)) }
    ensures free { grouping.new.binding ≡ binding.Free }
{
    if is_free(&grouping.binding) {
        return Ok(true);
    }
    closed_bound(grouping)
}

/// The operand that was being read ends; it has no end where its modifier wants another.
#[tactic(auto, using(crate::proofs::Backward::unit_laws, bqn_syntax::specs::grammar::TreeEquations::tree_equations))]
#[inline(never)]
fn closed_bound<'t>(grouping: &mut Grouping<'t>) -> Result<bool, Memory>
    ensures units { IfOk result (λ fine. when fine (backward grouping.new.units.items) ≡ bound (grouping_shown grouping.old)) }
    ensures free { grouping.new.binding ≡ binding.Free }
{
    match mem::replace(&mut grouping.binding, Binding::Free) {
        Binding::Free => Ok(true),
        Binding::Bound(function) => {
            push(&mut grouping.units, unit_of(function))?;
            Ok(true)
        }
        Binding::Wanting(_) => Ok(false),
    }
}

/// The function with one more modifier after it.
#[tactic(auto, using(bqn_syntax::specs::grammar::TreeEquations::tree_equations))]
#[inline(never)]
fn with_use<'t>(alloc: Global, function: Function<'t>, one: ModUse) -> Result<Function<'t>, Memory>
    ensures part { IfOk result (λ with. operand_shown with ≡ operand_shown function.entry) }
    ensures uses { IfOk result (λ with. uses_shown with ≡ uses_shown function.entry ++ use_of one ∷ []) }
{
    let (first, mut uses) = match function {
        Function::Plain(first) => (first, with_room(alloc, 1)?),
        Function::Modified(all) => {
            let Modified { first, uses } = all.into_inner();
            (first, uses)
        }
    };
    push(&mut uses, one)?;
    Ok(Function::Modified(boxed(alloc, Modified { first, uses })?))
}

/// The second operand of the last modifier.
#[tactic(auto, using(bqn_syntax::specs::grammar::TreeEquations::tree_equations))]
#[inline(never)]
fn second<'t>(
    alloc: Global,
    grouping: &mut Grouping<'t>,
    wanting: Boxed<Wanting<'t>>,
    draft: Draft<'t>,
) -> Result<(), Memory>
    ensures { IfOk result (λ done. grouping_shown grouping.new
        ≡ units.row (backward grouping.old.units.items)
        (units.Bound (operand_shown wanting.entry.function)
        (uses_shown wanting.entry.function ++ plain.Two (draft_of wanting.entry.modifier) (draft_of draft.entry) ∷ []))) }
{
    let Wanting { function, modifier } = wanting.into_inner();
    let one = ModUse::Two(part(alloc, modifier)?, part(alloc, draft)?);
    grouping.binding = Binding::Bound(with_use(alloc, function, one)?);
    Ok(())
}

/// One more subject or function.
#[tactic(auto, using(crate::proofs::Backward::unit_laws, bqn_syntax::specs::grammar::TreeEquations::tree_equations))]
#[inline(always)]
fn operand<'t>(alloc: Global, grouping: &mut Grouping<'t>, draft: Draft<'t>) -> Result<(), Memory>
    ensures { IfOk result (λ done. grouping_shown grouping.new
        ≡ operand (backward grouping.old.units.items) (binding_shown grouping.old.binding) (draft_of draft.entry)) }
{
    match mem::replace(&mut grouping.binding, Binding::Free) {
        Binding::Free => {}
        Binding::Bound(function) => push(&mut grouping.units, unit_of(function))?,
        Binding::Wanting(wanting) => return second(alloc, grouping, wanting, draft),
    }
    grouping.binding = Binding::Bound(Function::Plain(draft));
    Ok(())
}

/// One more 1-modifier.
#[tactic(auto, using(crate::proofs::Backward::unit_laws, bqn_syntax::specs::grammar::TreeEquations::tree_equations))]
#[inline(never)]
fn modified<'t>(
    alloc: Global,
    grouping: &mut Grouping<'t>,
    modifier: Draft<'t>,
) -> Result<bool, Memory>
    ensures { IfOk result (λ fine. when fine (grouping_shown grouping.new)
        ≡ modified (backward grouping.old.units.items) (binding_shown grouping.old.binding) (draft_of modifier.entry)) }
{
    match mem::replace(&mut grouping.binding, Binding::Free) {
        Binding::Free => {
            push(&mut grouping.units, Unit::Alone(modifier))?;
            Ok(true)
        }
        Binding::Bound(function) => {
            let one = ModUse::One(part(alloc, modifier)?);
            grouping.binding = Binding::Bound(with_use(alloc, function, one)?);
            Ok(true)
        }
        Binding::Wanting(_) => Ok(false),
    }
}

/// One more 2-modifier.
#[tactic(auto, using(crate::proofs::Backward::unit_laws, bqn_syntax::specs::grammar::TreeEquations::tree_equations))]
#[inline(never)]
fn modified_twice<'t>(
    alloc: Global,
    grouping: &mut Grouping<'t>,
    modifier: Draft<'t>,
) -> Result<bool, Memory>
    ensures { IfOk result (λ fine. when fine (grouping_shown grouping.new)
        ≡ modified_twice (backward grouping.old.units.items) (binding_shown grouping.old.binding) (draft_of modifier.entry)) }
{
    match mem::replace(&mut grouping.binding, Binding::Free) {
        Binding::Free => {
            push(&mut grouping.units, Unit::Alone(modifier))?;
            Ok(true)
        }
        Binding::Bound(function) => {
            let wanting = boxed(alloc, Wanting { function, modifier })?;
            grouping.binding = Binding::Wanting(wanting);
            Ok(true)
        }
        Binding::Wanting(_) => Ok(false),
    }
}

/// One more unit that no modifier binds to.
#[tactic(auto, using(crate::proofs::Backward::unit_laws))]
pub fn beside<'t>(grouping: &mut Grouping<'t>, unit: Unit<'t>) -> Result<bool, Memory>
    ensures { IfOk result (λ fine. when fine (grouping_shown grouping.new)
        ≡ beside (unit_shown unit.entry) (backward grouping.old.units.items) (binding_shown grouping.old.binding)) }
{
    if !closed(grouping)? {
        return Ok(false);
    }
    push(&mut grouping.units, unit)?;
    Ok(true)
}

/// One more part.
#[inline(always)]
pub fn bind_part<'t>(
    alloc: Global,
    grouping: &mut Grouping<'t>,
    draft: Draft<'t>,
) -> Result<bool, Memory>
    ensures { IfOk result (λ fine. when fine (grouping_shown grouping.new)
        ≡ bind_part (tag (draft_of draft.entry)) (backward grouping.old.units.items) (binding_shown grouping.old.binding) (draft_of draft.entry)) }
{
    match tag_of_draft(&draft) {
        Tag::Subject | Tag::Function => {
            operand(alloc, grouping, draft)?;
            Ok(true)
        }
        Tag::Mod1 => modified(alloc, grouping, draft),
        Tag::Mod2 => modified_twice(alloc, grouping, draft),
        Tag::Nothing => beside(grouping, Unit::Absent(draft)),
    }
}

/// Whether no operand is being read.
#[inline(always)]
fn is_free(bound: &Binding<'_>) -> bool
    ensures free { IsTrue result → bound.now ≡ binding.Free }
    ensures bound { bound.now ≡ binding.Free → IsTrue result }
{
    matches!(bound, Binding::Free)
}

/// The operand that was being read ends, unless its modifier wants another.
#[tactic(auto, using(crate::proofs::Backward::unit_laws, bqn_syntax::specs::grammar::TreeEquations::tree_equations))]
#[inline(never)]
fn settle<'t>(grouping: &mut Grouping<'t>) -> Result<(), Memory>
    ensures { IfOk result (λ done. grouping_shown grouping.new ≡ settled (grouping_shown grouping.old)) }
{
    match mem::replace(&mut grouping.binding, Binding::Free) {
        Binding::Free => {}
        Binding::Bound(function) => push(&mut grouping.units, unit_of(function))?,
        Binding::Wanting(wanting) => grouping.binding = Binding::Wanting(wanting),
    }
    Ok(())
}

/// One more part, which no modifier follows: an operand ends with it.
#[tactic(auto, using(crate::proofs::Backward::unit_laws, crate::proofs::Settled::part_laws))]
#[inline(always)]
pub fn bind_settled<'t>(
    alloc: Global,
    grouping: &mut Grouping<'t>,
    draft: Draft<'t>,
) -> Result<bool, Memory>
    ensures { IfOk result (λ fine. when fine (grouping_shown grouping.new)
        ≡ option_map settled (bind_part (tag (draft_of draft.entry)) (backward grouping.old.units.items) (binding_shown grouping.old.binding)
        (draft_of draft.entry))) }
{
    if is_free(&grouping.binding) {
        push(&mut grouping.units, alone(draft))?;
        return Ok(true);
    }
    if !bind_part(alloc, grouping, draft)? {
        return Ok(false);
    }
    settle(grouping)?;
    Ok(true)
}
