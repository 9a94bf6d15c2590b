ghost use Rattle.std.specs.Prelude.{◌≡◌, ◌≤◌, ◌^◌, IfOk, OnOk, length};
ghost use Rattle.std.specs.Str.{chars};
ghost use Rattle.bqn_syntax.specs.text.Text.{text_of, without_returns};
ghost use Rattle.bqn_token.specs.Tokenizing.{GivesAs, with_character, without_last_return};

use crate::error::TokenError;
use bqn_base::Refusal;
use std::alloc::{AllocError, Global};

/// The most bytes that a source may have.
const MOST_BYTES: usize = 1_048_576;

/// Drops a carriage return at the end.
#[tactic(auto, using(crate::proofs::Returns::last_laws))]
fn drop_return(kept: &mut Vec<char>)
    ensures { kept.new.items ≡ without_last_return kept.old.items }
{
    let Some(last) = kept.last().copied() else {
        return;
    };
    if last == '\r' {
        kept.pop();
    }
}

fn keep(kept: &mut Vec<char>, c: char) -> Result<(), AllocError>
    ensures { OnOk result (kept.new.items ≡ with_character kept.old.items c) }
{
    if c == '\n' {
        drop_return(kept);
    }
    kept.push(c)?;
    Ok(())
}

/// These characters without each carriage return directly before a line feed.
#[tactic(auto, using(crate::proofs::Returns::return_laws))]
fn characters_without_returns(alloc: Global, text: &[char]) -> Result<Vec<char>, AllocError>
    ensures { IfOk result (λ kept. kept.items ≡ without_returns text.now) }
{
    let mut kept = Vec::with_capacity(alloc, text.len())?;
    'characters: for c in text {
        keep(&mut kept, *c)?;
    }
    Ok(kept)
}

fn all_characters(alloc: Global, text: &str) -> Result<Vec<char>, AllocError>
    ensures { IfOk result (λ all. all.items ≡ chars text.now) }
{
    text.chars().collect(alloc)
}

/// The characters without each carriage return directly before a line feed.
#[tactic(auto, using(crate::proofs::Returns::return_laws))]
fn characters(alloc: Global, text: &str) -> Result<Vec<char>, AllocError>
    ensures { IfOk result (λ kept. kept.items ≡ without_returns (chars text.now)) }
{
    let all = all_characters(alloc, text)?;
    if all.contains(&'\r') {
        return characters_without_returns(alloc, all.as_slice());
    }
    Ok(all)
}

/// The text of a source.
///
/// # Errors
///
/// TooLong past 2^20 bytes, NotUtf8 at the length in bytes of the longest valid prefix, and want of memory.
#[tactic(auto, using(crate::proofs::Texts::text_laws))]
pub(crate) fn text(alloc: Global, bytes: &[u8]) -> Result<Vec<char>, TokenError>
    ensures exact { GivesAs (λ text. text.items) (text_of bytes.now) result }
    ensures short { IfOk result (λ text. length text.items ≤ 2 ^ 20) }
{
    if bytes.len() > MOST_BYTES {
        return Err(TokenError::Refused(Refusal::TooLong));
    }
    match simdutf8::compat::from_utf8(bytes) {
        Ok(text) => Ok(characters(alloc, text)?),
        Err(error) => Err(TokenError::Refused(Refusal::NotUtf8 {
            at: error.valid_up_to() as u32,
        })),
    }
}
