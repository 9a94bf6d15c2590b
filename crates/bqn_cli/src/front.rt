//! The one way from the bytes of a source to its tree, or to its first refusal.

ghost use Rattle.std.specs.Prelude.{◌≤◌, ◌^◌, length};
ghost use Rattle.bqn_syntax.specs.grammar.Trees.{tree_of};
ghost use Rattle.bqn_compile.specs.Shown.{resolution_shown};
ghost use Rattle.bqn_cli.specs.Accepting.{AcceptsAs, accepted_of};
ghost use Rattle.bqn_cli.specs.Answer.{accepted_tokens, well_formed, well_scoped, within_limits};
ghost use Rattle.bqn_cli.specs.Answer.{accepted as accepted_in};

use bqn_base::Refusal;
use bqn_compile::{CompileError, compile};
use bqn_parse::{ParseError, parse};
use bqn_scope::{Names, Resolved, ScopeError, resolve};
use bqn_syntax::{Token, Tree};
use bqn_token::{TokenError, tokens};
use std::alloc::Global;

/// Why a source is not accepted: it is refused, or memory is wanting.
#[derive(Clone, Copy, Debug, PartialEq, Eq)]
pub(crate) enum SourceError {
    Refused(Refusal),
    Memory,
}

/// The tokens of an accepted source, and their tree.
#[derive(Drop)]
pub(crate) struct AcceptedSource {
    pub(crate) tokens: Vec<Token>,
    pub(crate) tree: Tree,
}

/// Refuses a tree whose names are resolved for one constant, name or block too many.
#[tactic(auto, using(crate::proofs::Accepted::stage_laws))]
fn limited(alloc: Global, resolved: Resolved) -> Result<Tree, SourceError>
    ensures { AcceptsAs tree_of (within_limits (tree_of resolved.tree) (resolution_shown resolved)) result }
{
    match compile(alloc, &resolved) {
        Ok(_) => Ok(resolved.tree),
        Err(CompileError::Refused(refusal)) => Err(SourceError::Refused(refusal)),
        Err(CompileError::Memory) => Err(SourceError::Memory),
    }
}

/// Refuses a tree for a name in it, or for what is too much.
#[tactic(auto, using(crate::proofs::Accepted::stage_laws))]
fn scoped(alloc: Global, tree: Tree) -> Result<Tree, SourceError>
    ensures { AcceptsAs tree_of (well_scoped (tree_of tree)) result }
{
    match resolve(alloc, tree, &Names::new(alloc)) {
        Ok(resolved) => limited(alloc, resolved),
        Err(ScopeError::Refused(refusal)) => Err(SourceError::Refused(refusal)),
        Err(ScopeError::Memory) => Err(SourceError::Memory),
    }
}

/// The tree of a token list that breaks no rule.
#[tactic(auto, using(crate::proofs::Accepted::stage_laws))]
fn formed(alloc: Global, tokens: &[Token]) -> Result<Tree, SourceError>
    requires { length tokens.now ≤ 2 ^ 28 }
    ensures { AcceptsAs tree_of (well_formed tokens.now) result }
{
    match parse(alloc, tokens) {
        Ok(tree) => scoped(alloc, tree),
        Err(ParseError::Refused(refusal)) => Err(SourceError::Refused(refusal)),
        Err(ParseError::Memory) => Err(SourceError::Memory),
    }
}

#[tactic(auto, using(crate::proofs::Accepted::stage_laws))]
fn with_tree(alloc: Global, tokens: Vec<Token>) -> Result<AcceptedSource, SourceError>
    requires { length tokens.items ≤ 2 ^ 28 }
    ensures { AcceptsAs accepted_of (accepted_tokens tokens.items) result }
{
    match formed(alloc, &tokens) {
        Ok(tree) => Ok(AcceptedSource { tokens, tree }),
        Err(error) => Err(error),
    }
}

/// A source that breaks no rule and passes no limit.
///
/// # Errors
///
/// The first refusal of any other source, in the order of text, tokens, brackets, grammar, scope and limits; want of memory.
#[tactic(auto, using(crate::proofs::Accepted::stage_laws))]
pub(crate) fn accepted(alloc: Global, source: &[u8]) -> Result<AcceptedSource, SourceError>
    ensures { AcceptsAs accepted_of (accepted_in source.now) result }
{
    match tokens(alloc, source) {
        Ok(tokens) => with_tree(alloc, tokens),
        Err(TokenError::Refused(refusal)) => Err(SourceError::Refused(refusal)),
        Err(TokenError::Memory) => Err(SourceError::Memory),
    }
}
