ghost use Rattle.std.specs.Prelude.{◌≡◌, IfOk};
ghost use Rattle.std.specs.Option.{option_map};
ghost use Rattle.bqn_syntax.specs.grammar.Expressions.{single, exported_part, exported};
ghost use Rattle.bqn_syntax.specs.grammar.Trees.{pattern_of};
ghost use Rattle.bqn_syntax.specs.grammar.Sorts.{same_tag, role_tag, is_name, is_word, named};
ghost use Rattle.bqn_syntax.specs.grammar.Units as units;
ghost use Rattle.bqn_parse.specs.Drafts.{draft_of, function_of};
ghost use Rattle.bqn_parse.specs.Views.{unit_shown};

use crate::draft::{Draft, Function, Modified};
use crate::unit::Unit;
use bqn_base::Memory;
use bqn_syntax::{Kind, Pattern, Tag, Token};

fn same_tag(one: Tag, other: Tag) -> bool
    ensures { result ≡ same_tag one other }
{
    match one {
        Tag::Subject => matches!(other, Tag::Subject),
        Tag::Function => matches!(other, Tag::Function),
        Tag::Mod1 => matches!(other, Tag::Mod1),
        Tag::Mod2 => matches!(other, Tag::Mod2),
        Tag::Nothing => matches!(other, Tag::Nothing),
    }
}

/// Whether this is a name of this role, and not one of the special and system names.
fn is_name(tag: Tag, kind: &Kind) -> bool
    ensures { result ≡ is_name tag kind.now }
{
    match kind {
        Kind::Word(_, role) => same_tag(tag, Tag::of(*role)),
        _ => false,
    }
}

/// Whether this is a name of any role, and not one of the special and system names.
fn is_word(kind: &Kind) -> bool
    ensures { result ≡ is_word kind.now }
{
    matches!(kind, Kind::Word(_, _))
}

/// The name of this role that a part is by itself.
#[tactic(auto, using(bqn_syntax::specs::grammar::TreeEquations::tree_equations))]
pub fn named<'t>(tag: Tag, draft: Draft<'t>) -> Option<&'t Token>
    ensures { option_map (λ t. t.now) result ≡ named tag (draft_of draft.entry) }
{
    match draft {
        Draft::Token(token) => {
            if is_name(tag, &token.kind) {
                Some(token)
            } else {
                None
            }
        }
        _ => None,
    }
}

/// The part of a function that has no modifier.
#[tactic(auto, using(crate::proofs::Singles::single_laws, bqn_syntax::specs::grammar::TreeEquations::tree_equations))]
fn lone<'t>(function: Function<'t>) -> Option<Draft<'t>>
    ensures { option_map draft_of result ≡ single (units.Function (function_of function.entry)) }
{
    match function {
        Function::Plain(first) => Some(first),
        Function::Modified(all) => {
            let Modified { first, uses } = all.into_inner();
            if uses.is_empty() { Some(first) } else { None }
        }
    }
}

/// The part that a unit is by itself, with no modifier.
#[tactic(auto, using(bqn_syntax::specs::grammar::TreeEquations::tree_equations))]
pub fn single<'t>(unit: Unit<'t>) -> Option<Draft<'t>>
    ensures { option_map draft_of result ≡ single (unit_shown unit.entry) }
{
    match unit {
        Unit::Subject(draft) | Unit::Alone(draft) => Some(draft),
        Unit::Function(function) => lone(function),
        Unit::Absent(_) | Unit::Arrow(_) | Unit::Aim(_) => None,
    }
}

/// The name or `·` that a part is, as a pattern.
#[tactic(auto, using(bqn_syntax::specs::grammar::TreeEquations::tree_equations))]
fn exported_part(draft: Draft<'_>) -> Result<Option<Pattern>, Memory>
    ensures { IfOk result (λ q. option_map pattern_of q ≡ exported_part (draft_of draft.entry)) }
{
    match draft {
        Draft::Token(token) => {
            if is_word(&token.kind) {
                Ok(Some(Pattern::Name(token.copy()?)))
            } else {
                Ok(None)
            }
        }
        Draft::Nothing(skip) => Ok(Some(Pattern::Skip(skip.place))),
        _ => Ok(None),
    }
}

/// What is exported without a value: a name or a pattern.
#[tactic(auto, using(bqn_syntax::specs::grammar::TreeEquations::tree_equations))]
pub fn exported(unit: Unit<'_>) -> Result<Option<Pattern>, Memory>
    ensures { IfOk result (λ q. option_map pattern_of q ≡ exported (unit_shown unit.entry)) }
{
    match unit {
        Unit::Aim(pattern) => Ok(Some(pattern.into_inner())),
        Unit::Absent(draft) | Unit::Subject(draft) | Unit::Alone(draft) => { exported_part(draft) }
        Unit::Function(function) => match lone(function) {
            Some(draft) => exported_part(draft),
            None => Ok(None),
        },
        Unit::Arrow(_) => Ok(None),
    }
}
