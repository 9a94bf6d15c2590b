//! How a word is written as a number.

ghost use Rattle.std.specs.Prelude.{◌≡◌, []};
ghost use Rattle.bqn_base.specs.Literal.{behind_whole, digits_in, spelled, with_end, with_power, with_whole, without_underscores};
ghost use Rattle.bqn_literal.specs.Shown.{figures};
ghost use Rattle.bqn_literal.specs.Spellings.{found};

use crate::front::{has_digit, is_all_digits, split_digits, split_first};

/// The parts of a number word, with their underscores: a sign, digits, digits of a fraction, and a
/// power of ten with its sign. A part that is not written is empty.
#[derive(Clone, Copy)]
pub(crate) struct Spelling<'a> {
    pub(crate) negative: bool,
    pub(crate) whole: &'a [char],
    pub(crate) fraction: &'a [char],
    pub(crate) down: bool,
    pub(crate) power: &'a [char],
}

/// The power behind an `e`.
#[tactic(auto, using(crate::proofs::Forms::form_laws))]
fn read_power<'a>(
    negative: bool,
    whole: &'a [char],
    fraction: &'a [char],
    word: &'a [char],
) -> Option<Spelling<'a>>
    ensures { found result ≡ with_power negative (figures whole.now) (figures fraction.now) (without_underscores word.now) }
{
    let (first, behind) = split_first(word)?;
    if first == '¯' {
        if !is_all_digits(behind) {
            return None;
        }
        return Some(Spelling {
            negative,
            whole,
            fraction,
            down: true,
            power: behind,
        });
    }
    if !is_all_digits(word) {
        return None;
    }
    Some(Spelling {
        negative,
        whole,
        fraction,
        down: false,
        power: word,
    })
}

/// Nothing more, or an `e` and a power.
#[tactic(auto, using(crate::proofs::Forms::form_laws))]
fn read_end<'a>(
    negative: bool,
    whole: &'a [char],
    fraction: &'a [char],
    word: &'a [char],
) -> Option<Spelling<'a>>
    ensures { found result ≡ with_end negative (figures whole.now) (figures fraction.now) (without_underscores word.now) }
{
    match split_first(word) {
        None => Some(Spelling {
            negative,
            whole,
            fraction,
            down: false,
            power: word,
        }),
        Some(('e' | 'E', power)) => read_power(negative, whole, fraction, power),
        Some(_) => None,
    }
}

/// A dot and a fraction, or what may follow without them.
#[tactic(auto, using(crate::proofs::Forms::form_laws))]
fn read_fraction<'a>(negative: bool, whole: &'a [char], word: &'a [char]) -> Option<Spelling<'a>>
    ensures { found result ≡ behind_whole negative (figures whole.now) (without_underscores word.now) }
{
    match split_first(word) {
        Some(('.', behind)) => {
            let (fraction, rest) = split_digits(behind);
            if !has_digit(fraction) {
                return None;
            }
            read_end(negative, whole, fraction, rest)
        }
        _ => read_end(negative, whole, &[], word),
    }
}

/// The digits in front, and what may follow them.
#[tactic(auto, using(crate::proofs::Forms::form_laws))]
fn read_whole(negative: bool, word: &[char]) -> Option<Spelling<'_>>
    ensures { found result ≡ with_whole negative (digits_in (without_underscores word.now)) }
{
    let (whole, rest) = split_digits(word);
    if !has_digit(whole) {
        return None;
    }
    read_fraction(negative, whole, rest)
}

/// How the word is written as a number, if it is one.
#[tactic(auto, using(crate::proofs::Forms::form_laws))]
pub(crate) fn spell(word: &[char]) -> Option<Spelling<'_>>
    ensures { found result ≡ spelled (without_underscores word.now) }
{
    match split_first(word) {
        None => None,
        Some(('¯', behind)) => read_whole(true, behind),
        Some(_) => read_whole(false, word),
    }
}
