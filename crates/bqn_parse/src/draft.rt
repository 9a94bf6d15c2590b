ghost use Rattle.std.specs.Prelude.{◌≡◌, IfOk};
ghost use Rattle.std.specs.Option.{option_map};
ghost use Rattle.bqn_syntax.specs.grammar.Trees.{derived_of, part_of};
ghost use Rattle.bqn_syntax.specs.grammar.Sorts.{tag};
ghost use Rattle.bqn_parse.specs.Drafts.{draft_of, field_of, function_of, modified_of};

use crate::growth::shrunk;
use crate::tags::{tag_of_class, tag_of_expr, tag_of_last};
use bqn_base::{Memory, Row};
use bqn_syntax::{BlockTree, Derived, Expr, ModUse, Part, Tag, Token};
use sqlite_items::Boxed;
use std::alloc::Global;

/// The names of a field, and the part that stands before them.
#[derive(Drop)]
pub struct Field {
    pub base: Part,
    pub names: Vec<Token>,
}

/// A part that is not in the tree yet, in two words: its tokens are those of the source.
#[derive(Drop)]
pub enum Draft<'t> {
    Token(&'t Token),
    /// `·`
    Nothing(&'t Token),
    List(Boxed<Row<Expr>>),
    Merge(Boxed<Row<Expr>>),
    Paren(Boxed<Expr>),
    Block(Boxed<BlockTree>),
    Field(Boxed<Field>),
    Strand(Boxed<Row<Part>>),
}

/// A part and the modifiers after it, not in the tree yet.
#[derive(Drop)]
pub struct Modified<'t> {
    pub first: Draft<'t>,
    pub uses: Vec<ModUse>,
}

/// A function, not in the tree yet: a part by itself, or one with its modifiers.
#[derive(Drop)]
pub enum Function<'t> {
    Plain(Draft<'t>),
    Modified(Boxed<Modified<'t>>),
}

/// A value on the heap.
#[inline(always)]
pub fn boxed<T: Drop>(alloc: Global, value: T) -> Result<Boxed<T>, Memory>
    ensures { IfOk result (λ boxed. boxed ≡ value) }
{
    match Boxed::new(alloc, value) {
        Ok(boxed) => Ok(boxed),
        Err(_) => Err(Memory),
    }
}

/// The field, for the tree.
#[tactic(auto, using(bqn_syntax::specs::grammar::TreeEquations::tree_equations))]
fn whole(alloc: Global, field: Field) -> Result<Part, Memory>
    ensures { IfOk result (λ part. part_of part ≡ field_of field) }
{
    let Field { base, names } = field;
    Ok(Part::Field {
        base: boxed(alloc, base)?,
        names: Row::new(shrunk(names)),
    })
}

/// The part, for the tree.
#[tactic(auto, using(bqn_syntax::specs::grammar::TreeEquations::tree_equations))]
#[inline(always)]
pub fn part(alloc: Global, draft: Draft<'_>) -> Result<Part, Memory>
    ensures { IfOk result (λ part. part_of part ≡ draft_of draft.entry) }
{
    match draft {
        Draft::Token(token) => Ok(Part::Leaf(token.copy()?)),
        group => grouped(alloc, group),
    }
}

/// The part, for the tree, of brackets mostly.
#[tactic(auto, using(bqn_syntax::specs::grammar::TreeEquations::tree_equations))]
#[inline(never)]
fn grouped(alloc: Global, draft: Draft<'_>) -> Result<Part, Memory>
    ensures { IfOk result (λ part. part_of part ≡ draft_of draft.entry) }
{
    match draft {
        Draft::Token(token) => Ok(Part::Leaf(token.copy()?)),
        Draft::Nothing(skip) => Ok(Part::Nothing(skip.place)),
        Draft::List(all) => Ok(Part::List(all.into_inner())),
        Draft::Merge(all) => Ok(Part::Merge(all.into_inner())),
        Draft::Paren(inner) => Ok(Part::Paren(inner)),
        Draft::Block(block) => Ok(Part::Block(block)),
        Draft::Field(all) => whole(alloc, all.into_inner()),
        Draft::Strand(all) => Ok(Part::Strand(all.into_inner())),
    }
}

/// A part, if there is one, for the tree.
#[inline(always)]
pub fn maybe_part(alloc: Global, draft: Option<Draft<'_>>) -> Result<Option<Part>, Memory>
    ensures { IfOk result (λ x. option_map part_of x ≡ option_map draft_of draft.entry) }
{
    match draft {
        Some(draft) => Ok(Some(part(alloc, draft)?)),
        None => Ok(None),
    }
}

/// The part with its modifiers, for the tree.
#[tactic(auto, using(bqn_syntax::specs::grammar::TreeEquations::tree_equations))]
#[inline(never)]
fn derived_with(alloc: Global, modified: Modified<'_>) -> Result<Derived, Memory>
    ensures { IfOk result (λ derived. derived_of derived ≡ modified_of modified.entry) }
{
    let Modified { first, uses } = modified;
    Ok(Derived {
        first: part(alloc, first)?,
        uses: Row::new(shrunk(uses)),
    })
}

/// The function, for the tree.
#[tactic(auto, using(bqn_syntax::specs::grammar::TreeEquations::tree_equations))]
#[inline(always)]
pub fn derived(alloc: Global, function: Function<'_>) -> Result<Derived, Memory>
    ensures { IfOk result (λ derived. derived_of derived ≡ function_of function.entry) }
{
    match function {
        Function::Plain(first) => Ok(Derived {
            first: part(alloc, first)?,
            uses: Row::new(Vec::new(alloc)),
        }),
        Function::Modified(all) => derived_with(alloc, all.into_inner()),
    }
}

/// The role of a part.
#[inline(always)]
pub fn tag_of_draft(draft: &Draft<'_>) -> Tag
    ensures { result ≡ tag (draft_of draft.now) }
{
    match draft {
        Draft::Token(token) => token.kind.tag(),
        group => tag_of_group(group),
    }
}

/// The role of a part, of brackets mostly.
#[inline(never)]
fn tag_of_group(draft: &Draft<'_>) -> Tag
    ensures { result ≡ tag (draft_of draft.now) }
{
    match draft {
        Draft::Token(token) => token.kind.tag(),
        Draft::Nothing(_) => Tag::Nothing,
        Draft::List(_) | Draft::Merge(_) | Draft::Strand(_) => Tag::Subject,
        Draft::Paren(inner) => tag_of_expr(inner.get()),
        Draft::Block(block) => tag_of_class(block.get().class),
        Draft::Field(field) => tag_of_last(field.get().names.as_slice()),
    }
}
