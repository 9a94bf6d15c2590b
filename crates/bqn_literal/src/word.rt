//! What a number word denotes.

ghost use Rattle.std.specs.Prelude.{◌≡◌, Some};
ghost use Rattle.std.specs.List.{list_any};
ghost use Rattle.std.specs.Option.{option_and_then};
ghost use Rattle.bqn_base.specs.Literal.{in_64_bits, is_past_numbers, literal, magnitude, with_sign};
ghost use Rattle.bqn_literal.specs.Results.{number_of};
ghost use Rattle.bqn_literal.specs.Spellings.{spelled_by};
ghost use Rattle.bqn_literal.specs.Values.{small};

use crate::error::NumberError;
use crate::significand::{Significand, digit_count, power_of};
use crate::spelling::{Spelling, spell};

/// The size of a number that is spelled so, if it is whole and has at most 64 bits.
fn size_of(spelling: Spelling) -> Option<u64>
    ensures { result ≡ option_and_then small (magnitude (spelled_by spelling.entry)) }
{
    let whole = Significand::new().with_digits(spelling.whole)?;
    let read = whole.with_digits(spelling.fraction)?;
    let places = digit_count(spelling.fraction) as u128;
    let power = power_of(spelling.power);
    if spelling.down {
        read.scaled(0, places + power)
    } else {
        read.scaled(power, places)
    }
}

#[tactic(auto, using(crate::proofs::Words::fits_laws))]
fn of_64_bits(value: i128) -> Result<i64, NumberError>
    ensures { result ≡ number_of (in_64_bits value) }
{
    match i64::try_from(value) {
        Ok(value) => Ok(value),
        Err(_) => Err(NumberError::Range),
    }
}

fn signed(negative: bool, size: u64) -> Result<i64, NumberError>
    ensures { result ≡ number_of (with_sign negative (Some size)) }
{
    if negative {
        of_64_bits(-i128::from(size))
    } else {
        of_64_bits(i128::from(size))
    }
}

fn is_past(c: char) -> bool
    ensures { result ≡ is_past_numbers c }
{
    c == '∞' || c == 'π'
}

#[tactic(auto, using(crate::proofs::Words::past_laws))]
fn has_past(word: &[char]) -> bool
    ensures { result ≡ list_any is_past_numbers word.now }
{
    'scan: for c in word {
        if is_past(*c) {
            return true;
        }
    }
    false
}

/// The number that a number word denotes. Takes no memory.
///
/// Bad where the word has no number form, Range where it denotes no whole number of 64 bits.
#[tactic(auto, using(crate::proofs::Words::word_laws))]
pub fn number(word: &[char]) -> Result<i64, NumberError>
    ensures { result ≡ number_of (literal word.now) }
{
    let Some(spelling) = spell(word) else {
        if has_past(word) {
            return Err(NumberError::Range);
        }
        return Err(NumberError::Bad);
    };
    match size_of(spelling) {
        Some(size) => signed(spelling.negative, size),
        None => Err(NumberError::Range),
    }
}
