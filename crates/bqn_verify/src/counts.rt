//! How many there are of everything.

ghost use Rattle.std.specs.Prelude.{◌≡◌, length};
ghost use Rattle.std.specs.List.{list_all};
ghost use Rattle.bqn_code.specs.Conditions.{block_is_small, body_is_small, blocks_are_few as has_few_blocks, constants_are_few as has_few_constants, is_few as few, lists_are_few as has_few_lists, names_are_few as has_few_names, patterns_are_few as has_few_patterns, text_is_short as has_short_text};
ghost use Rattle.bqn_code.specs.Plain.{code_of, pattern_of};
ghost use Rattle.bqn_verify.specs.Judged.{is_small as has_few};

use crate::patterns::lists_are_few;
use bqn_base::Name;
use bqn_code::{Block, Body, Code, Const, PatternCode};

/// Whether there are fewer than 2^32.
pub fn is_few(n: usize) -> bool
    ensures { result ≡ few n }
{
    n < 4294967296
}

fn text_is_short(c: &Const) -> bool
    ensures { result ≡ has_short_text c.now }
{
    match c {
        Const::Text(text) => is_few(text.chars().len()),
        Const::Number(_) | Const::Char(_) => true,
    }
}

fn texts_are_short(constants: &[Const]) -> bool
    ensures { result ≡ list_all has_short_text constants.now }
{
    constants.iter().all(|c| text_is_short(c))
}

fn constants_are_few(code: &Code) -> bool
    ensures { result ≡ has_few_constants (code_of code.now) }
{
    code.constants.list().len() <= 65535 && texts_are_short(code.constants.list())
}

fn are_short(names: &[Name]) -> bool
    ensures { result ≡ list_all (λ name. few (length name)) names.now }
{
    names.iter().all(|name| is_few(name.chars().len()))
}

fn names_are_few(code: &Code) -> bool
    ensures { result ≡ has_few_names (code_of code.now) }
{
    is_few(code.names.list().len()) && are_short(code.names.list())
}

fn all_lists_are_few(patterns: &[PatternCode]) -> bool
    ensures { result ≡ list_all (λ p. has_few_lists (pattern_of p)) patterns.now }
{
    patterns.iter().all(|p| lists_are_few(p))
}

#[tactic(auto, using(crate::proofs::Leaves::code_lengths))]
fn patterns_are_few(code: &Code) -> bool
    ensures { result ≡ has_few_patterns (code_of code.now) }
{
    is_few(code.patterns.list().len()) && all_lists_are_few(code.patterns.list())
}

fn is_small_body(body: &Body) -> bool
    ensures { result ≡ body_is_small body.now }
{
    is_few(body.exports.list().len()) && is_few(body.code.list().len())
}

fn are_small_bodies(bodies: &[Body]) -> bool
    ensures { result ≡ list_all body_is_small bodies.now }
{
    bodies.iter().all(|body| is_small_body(body))
}

fn is_small_block(block: &Block) -> bool
    ensures { result ≡ block_is_small block.now }
{
    is_few(block.bodies.list().len()) && are_small_bodies(block.bodies.list())
}

fn are_small_blocks(blocks: &[Block]) -> bool
    ensures { result ≡ list_all block_is_small blocks.now }
{
    blocks.iter().all(|block| is_small_block(block))
}

fn blocks_are_few(code: &Code) -> bool
    ensures { result ≡ has_few_blocks (code_of code.now) }
{
    is_few(code.blocks.list().len()) && are_small_blocks(code.blocks.list())
}

/// Whether each count of a code fits where counts are kept.
pub fn is_small(code: &Code) -> bool
    ensures { result ≡ has_few (code_of code.now) }
{
    constants_are_few(code) && names_are_few(code) && patterns_are_few(code) && blocks_are_few(code)
}
