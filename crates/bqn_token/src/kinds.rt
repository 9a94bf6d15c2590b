ghost use Rattle.std.specs.Prelude.{◌≡◌, IfOk, IsTrue, Ok, Some, [], ◌∷◌};
ghost use Rattle.bqn_base.specs.Literal.{literal, unquoted};
ghost use Rattle.bqn_base.specs.Names.{is_name_character as is_plain};
ghost use Rattle.bqn_syntax.specs.text.Table.{is_piece, is_piece_from};
ghost use Rattle.bqn_syntax.specs.text.Tokens.{all_but_last, kind_of, name_kind, no_piece, number_kind, quoted, refused_at};
ghost use Rattle.bqn_syntax.specs.declared.progress.Progress.TheVariants.{Inside};
ghost use Rattle.bqn_syntax.specs.declared.token.Kind.TheVariants as kind;
ghost use Rattle.bqn_token.specs.Runs.{is_short_word};
ghost use Rattle.bqn_token.specs.Tokenizing.{Gives, placed};

use crate::error::TokenError;
use crate::extent::{is_a_digit, may_start_name, word_ends};
use crate::recent::Recent;
use crate::single::{kind_of_alone, single};
use crate::words::{
    is_plain_character, is_plainly_named, kind_of_system_word, kind_of_word, plain_kind,
};
use bqn_base::{Memory, Place, Refusal, Role};
use bqn_literal::{NumberError, number, string};
use bqn_syntax::Kind;
use std::alloc::Global;

/// Why no piece starts with this character at this place.
pub(crate) fn missing_piece(c: char, place: Place) -> Refusal
    ensures { result ≡ refused_at (no_piece c) place }
{
    match c {
        '\'' | '"' => Refusal::OpenQuote(place),
        '•' => Refusal::BadName(place),
        _ => Refusal::BadChar(place),
    }
}

/// The character between single quotes, which stands behind the first of them.
fn quoted_character(behind: &[char], place: Place) -> Result<Option<Kind>, TokenError>
    ensures { Gives (placed place (quoted behind.now)) result }
{
    match behind.split_first() {
        Some((c, _)) => Ok(Some(Kind::Char(*c))),
        None => Err(TokenError::Refused(Refusal::OpenQuote(place))),
    }
}

#[tactic(auto, using(crate::proofs::Quotes::last_laws))]
fn without_last(text: &[char]) -> &[char]
    ensures { result.now ≡ all_but_last text.now }
{
    match text.split_last() {
        Some((_, front)) => front,
        None => text,
    }
}

/// The text between double quotes, which stands behind the first of them.
#[tactic(auto, using(crate::proofs::Quotes::doubled_laws))]
fn quoted_text(alloc: Global, behind: &[char]) -> Result<Kind, Memory>
    requires { IsTrue (is_piece_from Inside behind.now) }
    ensures { IfOk result (λ given. given ≡ kind.Text (unquoted (all_but_last behind.now))) }
{
    let text = string(alloc, without_last(behind))?;
    Ok(Kind::Text(text))
}

fn named(kind: Option<Kind>, place: Place) -> Result<Option<Kind>, TokenError>
    ensures { Gives (placed place (name_kind kind)) result }
{
    match kind {
        Some(kind) => Ok(Some(kind)),
        None => Err(TokenError::Refused(Refusal::BadName(place))),
    }
}

/// The number that a word denotes.
#[tactic(auto, using(crate::proofs::Meanings::number_laws))]
fn numeric(word: &[char], place: Place) -> Result<Option<Kind>, TokenError>
    ensures { Gives (placed place (number_kind (literal word.now))) result }
{
    match number(word) {
        Ok(number) => Ok(Some(Kind::Number(number))),
        Err(NumberError::Bad) => Err(TokenError::Refused(Refusal::BadNumber(place))),
        Err(NumberError::Range) => Err(TokenError::Refused(Refusal::NumberRange(place))),
    }
}

/// What a piece at a place stands for: nothing for a blank or a comment, or a token.
fn any_kind_at(
    alloc: Global,
    recent: &mut Recent,
    piece: &[char],
    place: Place,
) -> Result<Option<Kind>, TokenError>
    requires { IsTrue (is_piece piece.now) }
    ensures { Gives (placed place (kind_of piece.now)) result }
{
    let Some((first, behind)) = piece.split_first() else {
        return Ok(None);
    };
    let first = *first;
    if let Some(alone) = single(first) {
        return Ok(kind_of_alone(alone, first));
    }
    if first == '#' {
        return Ok(None);
    }
    if first == '\'' {
        return quoted_character(behind, place);
    }
    if first == '"' {
        let text = quoted_text(alloc, behind)?;
        return Ok(Some(text));
    }
    if first == '•' {
        let kind = kind_of_system_word(alloc, recent, behind)?;
        return named(kind, place);
    }
    if may_start_name(first) {
        let kind = kind_of_word(alloc, recent, piece)?;
        return named(kind, place);
    }
    numeric(piece, place)
}

/// What a piece at a place stands for: nothing for a blank or a comment, or a token.
///
/// # Errors
///
/// The refusal of a bad word, and want of memory.
#[inline(always)]
pub(crate) fn kind_at(
    alloc: Global,
    recent: &mut Recent,
    piece: &[char],
    place: Place,
) -> Result<Option<Kind>, TokenError>
    requires { IsTrue (is_piece piece.now) }
    ensures { Gives (placed place (kind_of piece.now)) result }
{
    if is_plainly_named(piece) {
        let kind = plain_kind(recent, piece)?;
        return Ok(Some(kind));
    }
    any_kind_at(alloc, recent, piece, place)
}

/// Whether a lower-case letter or a digit is a word by itself before this text.
#[inline(always)]
pub(crate) fn is_short(first: char, behind: &[char]) -> bool
    ensures { result ≡ is_short_word first behind.now }
{
    is_plain_character(first) && word_ends(behind)
}

/// What such a word stands for.
#[inline(always)]
#[tactic(auto, using(crate::proofs::Plain::short_laws))]
pub(crate) fn short_kind(recent: &mut Recent, c: char) -> Result<Kind, Memory>
    requires { IsTrue (is_plain c) }
    ensures { IfOk result (λ kind. kind_of (c ∷ []) ≡ Ok (Some kind)) }
{
    if is_a_digit(c) {
        return Ok(Kind::Number(i64::from(c as u32 - '0' as u32)));
    }
    let name = recent.letter(c)?;
    Ok(Kind::Word(name, Role::Subject))
}
