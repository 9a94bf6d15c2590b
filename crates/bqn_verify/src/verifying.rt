//! The one test, and the call that tries it.

ghost use Rattle.std.specs.Prelude.{◌≡◌, nat_le};
ghost use Rattle.std.specs.List.{list_all};
ghost use Rattle.bqn_syntax.specs.text.Fitting.{begins_with_letter as letter_first};
ghost use Rattle.bqn_code.specs.Conditions.{leaves, names_begin_with_letters as letters_first, nesting, patterns_are_flat as flat};
ghost use Rattle.bqn_code.specs.Plain.{code_of, pattern_of};
ghost use Rattle.bqn_verify.specs.Judged.{is_verified as passes, leaf_is_there};
ghost use Rattle.bqn_verify.specs.Verifies.{Verifies};

use crate::bodies::bodies_pass;
use crate::counts::is_small;
use crate::patterns::{is_flat, leaves_are_there};
use crate::program::blocks_are_judged;
use crate::verified::Verified;
use bqn_base::Name;
use bqn_code::{Code, PatternCode};

/// Whether a letter stands first in a name.
fn begins_with_letter(name: &Name) -> bool
    ensures { result ≡ letter_first name.now }
{
    match name.chars().first() {
        None => false,
        Some(c) => c.is_ascii_lowercase(),
    }
}

fn names_begin_with_letters(code: &Code) -> bool
    ensures { result ≡ letters_first (code_of code.now) }
{
    code.names
        .list()
        .iter()
        .all(|name| begins_with_letter(name))
}

fn are_flat(patterns: &[PatternCode]) -> bool
    ensures { result ≡ list_all (λ p. nat_le (nesting (pattern_of p)) 257) patterns.now }
{
    patterns.iter().all(|p| is_flat(p, 257))
}

#[tactic(auto, using(crate::proofs::Leaves::code_lengths))]
fn patterns_are_flat(code: &Code) -> bool
    ensures { result ≡ flat (code_of code.now) }
{
    are_flat(code.patterns.list())
}

fn are_there(code: &Code, patterns: &[PatternCode]) -> bool
    ensures { result ≡ list_all (λ p. leaves (leaf_is_there (code_of code.now)) (pattern_of p)) patterns.now }
{
    patterns.iter().all(|p| leaves_are_there(code, p))
}

#[tactic(auto, using(crate::proofs::Leaves::code_lengths))]
fn patterns_are_there(code: &Code) -> bool
    ensures { result ≡ list_all (leaves (leaf_is_there (code_of code.now))) (code_of code.now).patterns }
{
    are_there(code, code.patterns.list())
}

/// Whether a code is verified. How deep patterns are is judged first, since other tests go as deep
/// as they.
fn is_verified(code: &Code) -> bool
    ensures { result ≡ passes (code_of code.now) }
{
    patterns_are_flat(code)
        && is_small(code)
        && blocks_are_judged(code)
        && names_begin_with_letters(code)
        && patterns_are_there(code)
        && bodies_pass(code)
}

/// The code as verified code, or, where it is not verified, the code again. No memory is taken.
pub fn verify(code: Code) -> Result<Verified, Code>
    ensures { Verifies result code }
{
    if is_verified(&code) {
        Ok(Verified::new(code))
    } else {
        Err(code)
    }
}
