ghost use Rattle.std.specs.Prelude.{◌≡◌, ◌≤◌, ◌^◌, IfOk, length};
ghost use Rattle.bqn_syntax.specs.grammar.Grammar.{WellSpelled};
ghost use Rattle.bqn_syntax.specs.grammar.Parsing.{ended, nowhere, parsed, program_of, walk};
ghost use Rattle.bqn_parse.specs.Looking.{stacked, openings};
ghost use Rattle.bqn_syntax.specs.grammar.Trees.{tree_of};
ghost use Rattle.bqn_parse.specs.Views.{Finds, Gives};
ghost use Rattle.bqn_parse.specs.Walking.{start, walk_shown};

use crate::error::ParseError;
use crate::judge::end;
use crate::looks::{Ahead, ahead_of, aheads};
use crate::one_token::step;
use crate::open_bracket::{Walk, new_bracket};
use bqn_base::{Place, Refusal, Row};
use bqn_grammar::{only_well_trees_are_found, well_trees_are_found};
use bqn_roles::{NestError, nest};
use bqn_syntax::{Inside, Token, Tree};
use std::alloc::Global;
use std::mem;

/// The place of what no token opens.
const NOWHERE: Place = Place { line: 0, column: 0 };

/// The tree, where every token has been read.
#[tactic(auto, using(crate::proofs::Parsed::finish_laws))]
fn finish<'t>(alloc: Global, tokens: &[Token], walk: &mut Walk<'t>) -> Result<Tree, ParseError>
    ensures { Gives (program_of (walk_shown tokens.now walk.old).outer (ended nowhere (walk_shown tokens.now walk.old).inner)) result }
{
    end(alloc, tokens, NOWHERE, &mut walk.inner)?;
    if !walk.outer.is_empty() {
        return Err(ParseError::Refused(Refusal::Bracket(walk.inner.opened)));
    }
    let statements = mem::replace(&mut walk.inner.statements, Vec::new(alloc));
    Ok(Tree {
        statements: Row::new(statements),
    })
}

/// The walk over the tokens, after whose opening brackets this stands, the first of them last.
#[tactic(auto, using(crate::proofs::Parsed::walk_laws))]
fn walk(alloc: Global, tokens: &[Token], behind: Vec<Ahead>) -> Result<Tree, ParseError>
    requires few { length tokens.now ≤ 2 ^ 28 }
    requires known { stacked behind.items ≡ openings tokens.now }
    ensures { Gives (walk start tokens.now) result }
{
    let mut left = behind;
    let mut spare = Vec::new(alloc);
    let mut walk = Walk {
        inner: new_bracket(alloc, Inside::Program, NOWHERE, &mut spare)?,
        outer: Vec::new(alloc),
        spare,
    };
    'tokens: for (index, token) in tokens.iter().enumerate() {
        let ahead = ahead_of(token, &mut left);
        match step(alloc, tokens, index, token, ahead, &mut walk) {
            Ok(()) => {}
            Err(error) => return Err(error),
        }
    }
    finish(alloc, tokens, &mut walk)
}

/// What the walk gives, after the scan of the brackets.
#[tactic(auto, using(crate::proofs::Parsed::parse_laws))]
fn tree(alloc: Global, tokens: &[Token]) -> Result<Tree, ParseError>
    requires { length tokens.now ≤ 2 ^ 28 }
    ensures { Gives (parsed tokens.now) result }
{
    match nest(alloc, tokens) {
        Ok(groups) => {
            drop(groups);
            let behind = aheads(alloc, tokens)?;
            walk(alloc, tokens, behind)
        }
        Err(NestError::Refused(refusal)) => Err(ParseError::Refused(refusal)),
        Err(NestError::Memory) => Err(ParseError::Memory),
    }
}

/// The tree of a token list, or its one refusal: Bracket or TooNested, and else that of the piece
/// or block which is decided first. Each well tree that the tokens spell is found, and only such.
#[tactic(auto, using(crate::proofs::Parsed::law_laws))]
pub fn parse(alloc: Global, tokens: &[Token]) -> Result<Tree, ParseError>
    requires { length tokens.now ≤ 2 ^ 28 }
    ensures exact { Gives (parsed tokens.now) result }
    ensures found { Finds tokens.now result }
    ensures only { IfOk result (λ tree. WellSpelled (tree_of tree) tokens.now) }
{
    well_trees_are_found();
    only_well_trees_are_found();
    tree(alloc, tokens)
}
