ghost use Rattle.std.specs.Prelude.{◌≡◌};
ghost use Rattle.bqn_syntax.specs.grammar.Trees.{part_of, expr_of};
ghost use Rattle.bqn_syntax.specs.grammar.Sorts.{class_tag, last_tag, tag, expr_tag};
ghost use Rattle.bqn_parse.specs.Following.{is_no_modifier};

use bqn_syntax::{Class, Expr, Part, Tag, Token};

/// Whether what has this role is no modifier.
#[inline(always)]
pub fn is_no_modifier(tag: Tag) -> bool
    ensures { result ≡ is_no_modifier tag }
{
    match tag {
        Tag::Subject | Tag::Function | Tag::Nothing => true,
        Tag::Mod1 | Tag::Mod2 => false,
    }
}

/// The role of a block of this class.
pub fn tag_of_class(class: Class) -> Tag
    ensures { result ≡ class_tag class }
{
    match class {
        Class::Immediate => Tag::Subject,
        Class::Function => Tag::Function,
        Class::Mod1 | Class::Mod1Deferred => Tag::Mod1,
        Class::Mod2 | Class::Mod2Deferred => Tag::Mod2,
    }
}

/// The role of a part that ends in these names.
#[tactic(auto, using(crate::proofs::LastName::last_tag_at_end))]
pub fn tag_of_last(names: &[Token]) -> Tag
    ensures { result ≡ last_tag names.now }
{
    match names.last() {
        None => Tag::Subject,
        Some(name) => name.kind.tag(),
    }
}

/// The role of a part. Parentheses pass on the role of what they hold, and a field has that of its
/// last name.
#[cycle(tag)]
#[tactic(auto, using(bqn_syntax::specs::grammar::TreeEquations::tree_equations))]
pub fn tag_of(part: &Part) -> Tag
    ensures { result ≡ tag (part_of part.now) }
{
    match part {
        Part::Leaf(token) => token.kind.tag(),
        Part::List(_) | Part::Merge(_) | Part::Strand(_) => Tag::Subject,
        Part::Paren(inner) => tag_of_expr(inner.get()),
        Part::Block(block) => tag_of_class(block.get().class),
        Part::Field { names, .. } => tag_of_last(names.list()),
        Part::Nothing(_) => Tag::Nothing,
    }
}

/// The role of an expression.
#[cycle(tag)]
#[tactic(auto, using(bqn_syntax::specs::grammar::TreeEquations::tree_equations))]
pub fn tag_of_expr(expr: &Expr) -> Tag
    ensures { result ≡ expr_tag (expr_of expr.now) }
{
    match expr {
        Expr::Value { .. } => Tag::Subject,
        Expr::Train { .. } => Tag::Function,
        Expr::Modifier { part, .. } => tag_of(part),
    }
}
