ghost use Rattle.std.specs.Prelude.{◌≡◌, Ok};
ghost use Rattle.bqn_syntax.specs.grammar.Looks.{first_of, look, rest_of};
ghost use Rattle.bqn_syntax.specs.grammar.Sorts.{sort_of};
ghost use Rattle.bqn_parse.specs.Looking.{ahead_by, ahead_shown, stacked, left_behind, looks_shown, openings, with_opening};
ghost use Rattle.bqn_parse.specs.Walking.{Made, Moves};

use crate::error::ParseError;
use bqn_syntax::{Sort, Token};
use std::alloc::Global;

/// What stands from a place on: joined elements, if any, and then an arrow (`arrow`); an element
/// and then these (`element`); the rest of a piece that ends in `:` (`colon`).
#[derive(Clone, Copy)]
pub struct Ahead {
    pub arrow: bool,
    pub element: bool,
    pub colon: bool,
}

const NOTHING: Ahead = Ahead {
    arrow: false,
    element: false,
    colon: false,
};

/// What stands here, and after each bracket that closes but does not open from here on, the
/// innermost last.
#[derive(Drop)]
struct Looks {
    here: Ahead,
    outer: Vec<Ahead>,
}

/// Takes away what stands after the innermost bracket.
#[tactic(auto, using(crate::proofs::Looking::look_laws))]
fn leave(outer: &mut Vec<Ahead>) -> Ahead
    ensures first { ahead_shown result ≡ first_of (stacked outer.old.items) }
    ensures rest { stacked outer.new.items ≡ rest_of (stacked outer.old.items) }
{
    match outer.pop() {
        None => NOTHING,
        Some(ahead) => ahead,
    }
}

/// One more token, before the others: what stands after the bracket that it opens is found.
#[tactic(auto, using(crate::proofs::Looking::look_laws))]
#[inline(always)]
fn look(looks: &mut Looks, found: &mut Vec<Ahead>, sort: Sort) -> Result<(), ParseError>
    ensures looks { Moves (Ok (look sort (looks_shown looks.old))) (looks_shown looks.new) result }
    ensures found { Moves (Ok (with_opening sort (first_of (looks_shown looks.old).outer) (stacked found.old.items))) (stacked found.new.items) result }
{
    let here = looks.here;
    match sort {
        Sort::Opens(_) => {
            let behind = leave(&mut looks.outer);
            found.push(behind)?;
            looks.here = Ahead {
                arrow: false,
                element: behind.arrow,
                colon: behind.colon,
            };
        }
        Sort::Closes(_) => {
            looks.outer.push(here)?;
            looks.here = NOTHING;
        }
        Sort::Separates | Sort::Ends | Sort::Asks => looks.here = NOTHING,
        Sort::Heads => {
            looks.here = Ahead {
                arrow: false,
                element: false,
                colon: true,
            }
        }
        Sort::Draws(_) => {
            looks.here = Ahead {
                arrow: true,
                element: false,
                colon: here.colon,
            }
        }
        Sort::Joins => {
            looks.here = Ahead {
                arrow: here.element,
                element: false,
                colon: here.colon,
            }
        }
        Sort::Selects => {
            looks.here = Ahead {
                arrow: false,
                element: false,
                colon: here.colon,
            }
        }
        Sort::Skips | Sort::Stands => {
            looks.here = Ahead {
                arrow: false,
                element: here.arrow,
                colon: here.colon,
            }
        }
    }
    Ok(())
}

/// For each opening bracket what stands after the one that closes it, the first of them last.
#[tactic(auto, using(crate::proofs::Looking::aheads_laws))]
pub fn aheads(alloc: Global, tokens: &[Token]) -> Result<Vec<Ahead>, ParseError>
    ensures { Made (Ok (openings tokens.now)) (λ all. stacked all.items) result }
{
    let mut looks = Looks {
        here: NOTHING,
        outer: Vec::new(alloc),
    };
    let mut found = Vec::new(alloc);
    let mut next = tokens.len();
    'tokens: while next > 0 {
        next -= 1;
        look(&mut looks, &mut found, tokens[next].kind.sort())?;
    }
    Ok(found)
}

/// What stands after the bracket that such a token opens, if it opens one. It is taken from what stands after those
/// that are left.
#[inline(always)]
pub fn ahead_of(token: &Token, left: &mut Vec<Ahead>) -> Ahead
    ensures ahead { ahead_shown result ≡ ahead_by (sort_of token.now.kind) (stacked left.old.items) }
    ensures left { stacked left.new.items ≡ left_behind (sort_of token.now.kind) (stacked left.old.items) }
{
    match token.kind.sort() {
        Sort::Opens(_) => leave(left),
        _ => NOTHING,
    }
}
