ghost use Rattle.std.specs.Prelude.{◌≡◌, IfOk, IsTrue, OnOk, Ok, Some};
ghost use Rattle.std.specs.List.{list_all};
ghost use Rattle.bqn_base.specs.Characters.{is_lower};
ghost use Rattle.bqn_base.specs.Names.{is_name_character as is_plain};
ghost use Rattle.bqn_syntax.specs.text.Tokens.{kind_of};
ghost use Rattle.bqn_syntax.specs.text.Words.{begins_with_letter, is_modifier_word, is_name_character, is_name_word, lower_case, name_of, system_kind, word_kind};
ghost use Rattle.bqn_token.specs.Runs.{is_plain_name};

use crate::extent::{is_a_digit, is_a_letter};
use crate::recent::Recent;
use bqn_base::{Memory, Name, Role};
use bqn_roles::role;
use bqn_syntax::{Kind, Special};
use std::alloc::{AllocError, Global};
use std::mem;

const MODIFIER: [char; 1] = ['𝕣'];

const ONE_SIDED: [char; 2] = ['_', '𝕣'];

const TWO_SIDED: [char; 3] = ['_', '𝕣', '_'];

fn may_stand_in_name(c: char) -> bool
    ensures { result ≡ is_name_character c }
{
    is_a_letter(c) || is_a_digit(c) || c == '_'
}

/// Whether the first character behind underscores is a letter.
#[tactic(auto, using(crate::proofs::Names::begin_laws))]
fn begins_with_a_letter(word: &[char]) -> bool
    ensures { result ≡ begins_with_letter word.now }
{
    'word: for c in word {
        if *c != '_' {
            return is_a_letter(*c);
        }
    }
    false
}

fn may_all_stand_in_name(word: &[char]) -> bool
    ensures { result ≡ list_all is_name_character word.now }
{
    word.iter().all(|c| may_stand_in_name(*c))
}

fn is_a_name_word(word: &[char]) -> bool
    ensures { result ≡ is_name_word word.now }
{
    begins_with_a_letter(word) && may_all_stand_in_name(word)
}

fn is_a_small_letter(c: char) -> bool
    ensures { result ≡ is_lower c }
{
    c.is_ascii_lowercase()
}

pub(crate) fn is_plain_character(c: char) -> bool
    ensures { result ≡ is_plain c }
{
    is_a_small_letter(c) || is_a_digit(c)
}

fn is_spelled_plainly(word: &[char]) -> bool
    ensures { result ≡ list_all is_plain word.now }
{
    word.iter().all(|c| is_plain_character(*c))
}

/// Whether the word is a lower-case letter and then such letters and digits.
#[tactic(auto, using(crate::proofs::Plain::named_laws))]
pub(crate) fn is_plainly_named(word: &[char]) -> bool
    ensures { result ≡ is_plain_name word.now }
{
    let Some((first, _)) = word.split_first() else {
        return false;
    };
    if !is_a_small_letter(*first) {
        return false;
    }
    is_spelled_plainly(word)
}

/// What such a word stands for.
#[inline(always)]
#[tactic(auto, using(crate::proofs::Plain::kind_laws))]
pub(crate) fn plain_kind(recent: &mut Recent, word: &[char]) -> Result<Kind, Memory>
    requires { IsTrue (is_plain_name word.now) }
    ensures { IfOk result (λ kind. kind_of word.now ≡ Ok (Some kind)) }
{
    let name = recent.name(word)?;
    Ok(Kind::Word(name, Role::Subject))
}

fn lower(c: char) -> char
    ensures { result ≡ lower_case c }
{
    c.to_ascii_lowercase()
}

/// Puts the letters of a word, without case and underscores, in place of those that were there.
#[tactic(auto, using(crate::proofs::Names::letter_laws))]
fn put_letters(letters: &mut Vec<char>, word: &[char]) -> Result<(), AllocError>
    ensures { OnOk result (letters.new.items ≡ name_of word.now) }
{
    letters.clear();
    'word: for c in word {
        if *c != '_' {
            letters.push(lower(*c))?;
        }
    }
    Ok(())
}

/// The name that a word spells with capitals or underscores.
#[inline(never)]
#[tactic(auto, using(crate::proofs::Names::name_laws))]
fn respelled(alloc: Global, recent: &mut Recent, word: &[char]) -> Result<Name, Memory>
    requires { IsTrue (list_all is_name_character word.now) }
    ensures { IfOk result (λ name. name ≡ name_of word.now) }
{
    let mut letters = mem::replace(&mut recent.letters, Vec::new(alloc));
    let Ok(()) = put_letters(&mut letters, word) else {
        return Err(Memory);
    };
    let name = recent.name(letters.as_slice())?;
    recent.letters = letters;
    Ok(name)
}

/// The name that a word spells: without case and underscores.
#[inline(always)]
#[tactic(auto, using(crate::proofs::Names::name_laws))]
fn name(alloc: Global, recent: &mut Recent, word: &[char]) -> Result<Name, Memory>
    requires { IsTrue (list_all is_name_character word.now) }
    ensures { IfOk result (λ name. name ≡ name_of word.now) }
{
    if is_spelled_plainly(word) {
        recent.name(word)
    } else {
        respelled(alloc, recent, word)
    }
}

/// Whether the word names the modifier itself.
fn is_a_modifier_word(word: &[char]) -> bool
    ensures { result ≡ is_modifier_word word.now }
{
    word == MODIFIER.as_slice() || word == ONE_SIDED.as_slice() || word == TWO_SIDED.as_slice()
}

/// What a word stands for, or none where it is no name.
#[tactic(auto, using(crate::proofs::Names::word_laws))]
pub(crate) fn kind_of_word(
    alloc: Global,
    recent: &mut Recent,
    word: &[char],
) -> Result<Option<Kind>, Memory>
    ensures { IfOk result (λ kind. kind ≡ word_kind word.now) }
{
    if is_a_name_word(word) {
        let name = name(alloc, recent, word)?;
        return Ok(Some(Kind::Word(name, role(word))));
    }
    if is_a_modifier_word(word) {
        return Ok(Some(Kind::Special(Special::Modifier, role(word))));
    }
    Ok(None)
}

/// What a word behind `•` stands for, or none where it is no name.
pub(crate) fn kind_of_system_word(
    alloc: Global,
    recent: &mut Recent,
    word: &[char],
) -> Result<Option<Kind>, Memory>
    ensures { IfOk result (λ kind. kind ≡ system_kind word.now) }
{
    if !is_a_name_word(word) {
        return Ok(None);
    }
    let name = name(alloc, recent, word)?;
    Ok(Some(Kind::System(name, role(word))))
}
