ghost use Rattle.std.specs.Prelude.{◌≡◌, position, ◌==◌};
ghost use Rattle.bqn_syntax.specs.text.Table.{is_one_of, singles};
ghost use Rattle.bqn_token.specs.Alones.{mark_of, shown_alone, single_of};
ghost use Rattle.bqn_token.specs.Singles.{place_between, primitives};

use crate::extent::is_a_letter_or_digit;
use bqn_base::Role;
use bqn_syntax::{Kind, Special};

/// What a character that is a piece by itself stands for.
#[derive(Clone, Copy)]
pub(crate) enum Alone {
    Blank,
    /// The character with code 0.
    Zero,
    Special(Special, Role),
    Given(u8),
    Punct,
}

/// The code of a primitive of ASCII, if the character is one.
fn ascii_code(c: char) -> Option<u8>
    ensures { result ≡ place_between 0x0 0x80 0 primitives c }
{
    match c {
        '+' => Some(0),
        '-' => Some(1),
        '|' => Some(8),
        '<' => Some(12),
        '>' => Some(13),
        '=' => Some(15),
        '/' => Some(33),
        '!' => Some(43),
        '`' => Some(52),
        _ => None,
    }
}

/// The code of a primitive behind ASCII and before the mathematical operators of Unicode, if the character is one.
fn early_code(c: char) -> Option<u8>
    ensures { result ≡ place_between 0x80 0x2200 0 primitives c }
{
    match c {
        '×' => Some(2),
        '÷' => Some(3),
        '¬' => Some(9),
        '↑' => Some(26),
        '↓' => Some(27),
        '↕' => Some(28),
        '«' => Some(29),
        '»' => Some(30),
        '˙' => Some(44),
        '˜' => Some(45),
        '˘' => Some(46),
        '¨' => Some(47),
        '⁼' => Some(49),
        '´' => Some(50),
        '˝' => Some(51),
        _ => None,
    }
}

/// The code of a primitive among the mathematical operators of Unicode, if the character is one.
fn operator_code(c: char) -> Option<u8>
    ensures { result ≡ place_between 0x2200 0x2300 0 primitives c }
{
    match c {
        '⋆' => Some(4),
        '√' => Some(5),
        '∧' => Some(10),
        '∨' => Some(11),
        '≠' => Some(14),
        '≤' => Some(16),
        '≥' => Some(17),
        '≡' => Some(18),
        '≢' => Some(19),
        '⊣' => Some(20),
        '⊢' => Some(21),
        '∾' => Some(23),
        '≍' => Some(24),
        '⋈' => Some(25),
        '⊏' => Some(36),
        '⊑' => Some(37),
        '⊐' => Some(38),
        '⊒' => Some(39),
        '∊' => Some(40),
        '⊔' => Some(42),
        '∘' => Some(53),
        '⊸' => Some(55),
        '⊘' => Some(58),
        _ => None,
    }
}

/// The code of a primitive behind the mathematical operators of Unicode, if the character is one.
fn late_code(c: char) -> Option<u8>
    ensures { result ≡ place_between 0x2300 0x110000 0 primitives c }
{
    match c {
        '⌊' => Some(6),
        '⌈' => Some(7),
        '⥊' => Some(22),
        '⌽' => Some(31),
        '⍉' => Some(32),
        '⍋' => Some(34),
        '⍒' => Some(35),
        '⍷' => Some(41),
        '⌜' => Some(48),
        '○' => Some(54),
        '⟜' => Some(56),
        '⌾' => Some(57),
        '◶' => Some(59),
        '⎉' => Some(60),
        '⚇' => Some(61),
        '⍟' => Some(62),
        '⎊' => Some(63),
        _ => None,
    }
}

/// The code of a primitive, if the character is one: its place among them.
#[inline(always)]
fn primitive_code(c: char) -> Option<u8>
    ensures { result ≡ position (λ d. d == c) primitives }
{
    match c as u32 {
        0..0x80 => ascii_code(c),
        0x80..0x2200 => early_code(c),
        0x2200..0x2300 => operator_code(c),
        _ => late_code(c),
    }
}

/// What a blank, punctuation, `@` or a special name of one character stands for.
#[inline(always)]
fn mark(c: char) -> Option<Alone>
    ensures { result ≡ mark_of c }
{
    match c {
        ' ' | '\t' => Some(Alone::Blank),
        '@' => Some(Alone::Zero),
        '\n'
        | '←'
        | '⇐'
        | '↩'
        | '('
        | ')'
        | '{'
        | '}'
        | '⟨'
        | '⟩'
        | '['
        | ']'
        | '‿'
        | '·'
        | '⋄'
        | ','
        | '.'
        | ';'
        | ':'
        | '?' => Some(Alone::Punct),
        '𝕨' => Some(Alone::Special(Special::Left, Role::Subject)),
        '𝕎' => Some(Alone::Special(Special::Left, Role::Function)),
        '𝕩' => Some(Alone::Special(Special::Right, Role::Subject)),
        '𝕏' => Some(Alone::Special(Special::Right, Role::Function)),
        '𝕤' => Some(Alone::Special(Special::Own, Role::Subject)),
        '𝕊' => Some(Alone::Special(Special::Own, Role::Function)),
        '𝕗' => Some(Alone::Special(Special::LeftOperand, Role::Subject)),
        '𝔽' => Some(Alone::Special(Special::LeftOperand, Role::Function)),
        '𝕘' => Some(Alone::Special(Special::RightOperand, Role::Subject)),
        '𝔾' => Some(Alone::Special(Special::RightOperand, Role::Function)),
        _ => None,
    }
}

/// What a character that is neither a letter nor a digit stands for, if it is a piece by itself.
#[inline(always)]
fn sign(c: char) -> Option<Alone>
    ensures { result ≡ single_of c }
{
    match mark(c) {
        Some(mark) => Some(mark),
        None => primitive_code(c).map(|code| Alone::Given(code)),
    }
}

/// What a character stands for, or none where it is no piece by itself.
#[inline(always)]
#[tactic(auto, using(crate::proofs::Alones::sign_laws))]
pub(crate) fn single(c: char) -> Option<Alone>
    ensures { result ≡ single_of c }
{
    if is_a_letter_or_digit(c) {
        None
    } else {
        sign(c)
    }
}

/// Whether this is a piece by itself.
#[inline(never)]
#[tactic(auto, using(crate::proofs::Alones::some_laws))]
pub(crate) fn is_single(c: char) -> bool
    ensures { result ≡ is_one_of singles c }
{
    single(c).is_some()
}

/// The token of such a character: none for a blank.
#[inline(always)]
pub(crate) fn kind_of_alone(alone: Alone, c: char) -> Option<Kind>
    ensures { result ≡ shown_alone alone c }
{
    match alone {
        Alone::Blank => None,
        Alone::Zero => Some(Kind::Char('\0')),
        Alone::Special(name, role) => Some(Kind::Special(name, role)),
        Alone::Given(code) => Some(Kind::Given(code)),
        Alone::Punct => Some(Kind::Punct(c)),
    }
}
