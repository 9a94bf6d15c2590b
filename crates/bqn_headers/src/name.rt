ghost use Rattle.std.specs.Prelude.{◌≡◌};
ghost use Rattle.bqn_syntax.specs.declared.sort.Tag.TheVariants.{Subject};
ghost use Rattle.bqn_syntax.specs.grammar.Headers as Headers;
ghost use Rattle.bqn_syntax.specs.grammar.Sorts.{is_name, is_word};
ghost use Rattle.bqn_headers.specs.Elements.{is_literal};

use bqn_base::Role;
use bqn_syntax::{Kind, Special, Tag};

/// What a name is as that of the block's own function or modifier.
pub(crate) fn own_tag(kind: &Kind) -> Tag
    ensures { result ≡ Headers.own_tag kind.now }
{
    match kind {
        Kind::Word(_, role) => Tag::of(*role),
        Kind::Special(Special::Own, Role::Function) => Tag::Function,
        Kind::Special(Special::Modifier, Role::Mod1) => Tag::Mod1,
        Kind::Special(Special::Modifier, Role::Mod2) => Tag::Mod2,
        _ => Tag::Nothing,
    }
}

/// Whether it is `𝕗`, `𝔽`, or the name of a subject or a function.
pub(crate) fn is_left_operand(kind: &Kind) -> bool
    ensures { result ≡ Headers.is_left_operand kind.now }
{
    match kind {
        Kind::Special(Special::LeftOperand, _) => true,
        Kind::Word(_, Role::Subject | Role::Function) => true,
        _ => false,
    }
}

/// Whether it is `𝕘`, `𝔾`, or the name of a subject or a function.
pub(crate) fn is_right_operand(kind: &Kind) -> bool
    ensures { result ≡ Headers.is_right_operand kind.now }
{
    match kind {
        Kind::Special(Special::RightOperand, _) => true,
        Kind::Word(_, Role::Subject | Role::Function) => true,
        _ => false,
    }
}

/// Whether it is `𝕨`.
pub(crate) fn is_left(kind: &Kind) -> bool
    ensures { result ≡ Headers.is_left kind.now }
{
    match kind {
        Kind::Special(Special::Left, Role::Subject) => true,
        _ => false,
    }
}

/// Whether it is `𝕩`.
pub(crate) fn is_right(kind: &Kind) -> bool
    ensures { result ≡ Headers.is_right kind.now }
{
    match kind {
        Kind::Special(Special::Right, Role::Subject) => true,
        _ => false,
    }
}

/// Whether it is the name of a subject.
pub(crate) fn is_subject(kind: &Kind) -> bool
    ensures { result ≡ is_name Subject kind.now }
{
    match kind {
        Kind::Word(_, Role::Subject) => true,
        _ => false,
    }
}

/// Whether it is a name that is not special.
pub(crate) fn is_a_word(kind: &Kind) -> bool
    ensures { result ≡ is_word kind.now }
{
    match kind {
        Kind::Word(_, _) => true,
        _ => false,
    }
}

/// Whether it is a number, a character or a text.
pub(crate) fn is_a_literal(kind: &Kind) -> bool
    ensures { result ≡ is_literal kind.now }
{
    match kind {
        Kind::Number(_) | Kind::Char(_) | Kind::Text(_) => true,
        _ => false,
    }
}
