ghost use Rattle.std.specs.Prelude.{◌≡◌, List, map, drop, IfOk, None, Ok};
ghost use Rattle.std.specs.Option.{option_map};
ghost use Rattle.bqn_syntax.specs.grammar.Parsing as parsing;
ghost use Rattle.bqn_syntax.specs.grammar.Trees.{expr_of, header_of, pattern_of, stmt_of};
ghost use Rattle.bqn_syntax.specs.declared.token.Token.{Token};
ghost use Rattle.bqn_parse.specs.Views.{item_of};
ghost use Rattle.bqn_parse.specs.Walking.{bracket_shown, Moves};

use crate::error::ParseError;
use crate::growth::{push, taken};
use crate::item::Item;
use crate::unit::Unit;
use bqn_base::{Memory, Place, Row};
use bqn_syntax::{BodyTree, Expr, Header, Inside, Pattern, Stmt};
use std::alloc::Global;

/// What is open: what its pieces stand in, the place where it opened, the index of the first token
/// of the piece that is being read and the items of that piece, room for its units, and what has been read: expressions,
/// patterns, or the bodies of a block and of its last body the header and the statements.
#[derive(Drop)]
pub struct OpenBracket<'t> {
    pub inside: Inside,
    pub opened: Place,
    pub first: Option<usize>,
    pub items: Vec<Item<'t>>,
    pub units: Vec<Unit<'t>>,
    pub expressions: Vec<Expr>,
    pub targets: Vec<Pattern>,
    pub header: Option<Header>,
    pub statements: Vec<Stmt>,
    pub done: Vec<BodyTree>,
}

/// The innermost bracket, those around it, the innermost last, and brackets that were closed, whose room is there to be
/// used again.
#[derive(Drop)]
pub struct Walk<'t> {
    pub inner: Box<OpenBracket<'t>>,
    pub outer: Vec<Box<OpenBracket<'t>>>,
    pub spare: Vec<Box<OpenBracket<'t>>>,
}

/// Takes the header, if there is one.
#[inline(never)]
fn take_header(header: &mut Option<Header>) -> Option<Header>
    ensures taken { result ≡ header.old }
    ensures left { header.new ≡ None }
{
    header.take()
}

/// A bracket that opens at a place, with nothing in it, in spare room if there is some.
pub fn new_bracket<'t>(
    alloc: Global,
    inside: Inside,
    opened: Place,
    spare: &mut Vec<Box<OpenBracket<'t>>>,
) -> Result<Box<OpenBracket<'t>>, Memory>
    ensures { IfOk result (λ inner. (tokens : List Token) → bracket_shown tokens inner.value ≡ parsing.fresh inside opened) }
{
    match spare.pop() {
        Some(mut inner) => {
            inner.reopen(inside, opened);
            Ok(inner)
        }
        None => match Box::new(alloc, OpenBracket::new(alloc, inside, opened)) {
            Ok(inner) => Ok(inner),
            Err(_) => Err(Memory),
        },
    }
}

impl<'t> OpenBracket<'t> {
    /// A bracket that opens at a place, with nothing in it.
    pub fn new(alloc: Global, inside: Inside, opened: Place) -> OpenBracket<'t>
        ensures { (tokens : List Token) → bracket_shown tokens result ≡ parsing.fresh inside opened }
    {
        OpenBracket {
            inside,
            opened,
            first: None,
            items: Vec::new(alloc),
            units: Vec::new(alloc),
            expressions: Vec::new(alloc),
            targets: Vec::new(alloc),
            header: None,
            statements: Vec::new(alloc),
            done: Vec::new(alloc),
        }
    }

    /// Opens at another place, with nothing in it.
    fn reopen(&mut self, inside: Inside, opened: Place)
        ensures { (tokens : List Token) → bracket_shown tokens self.new ≡ parsing.fresh inside opened }
    {
        self.inside = inside;
        self.opened = opened;
        self.first = None;
        self.items.clear();
        self.expressions.clear();
        self.targets.clear();
        self.header = None;
        self.statements.clear();
        self.done.clear();
    }

    /// Says that a piece has begun by the token with this index.
    pub fn begin(&mut self, index: usize)
        ensures { (tokens : List Token) → bracket_shown tokens self.new ≡ parsing.begun (drop index tokens) (bracket_shown tokens self.old) }
    {
        if self.first.is_none() {
            self.first = Some(index);
        }
    }

    /// One more item in the piece that is being read.
    #[tactic(auto, using(crate::proofs::Walking::append_laws))]
    #[inline(always)]
    pub fn and_item(&mut self, item: Item<'t>) -> Result<(), Memory>
        ensures { IfOk result (λ done. (tokens : List Token) → bracket_shown tokens self.new
            ≡ parsing.and_item (item_of item.entry) (bracket_shown tokens self.old)) }
    {
        push(&mut self.items, item)
    }

    /// The piece that was read is this expression, and the bracket waits for the next one.
    #[tactic(auto, using(crate::proofs::Walking::append_laws))]
    #[inline(always)]
    pub fn and_expression(&mut self, e: Expr) -> Result<(), ParseError>
        ensures { (tokens : List Token) → Moves (Ok (parsing.and_expression (expr_of e) (bracket_shown tokens self.old)))
            (bracket_shown tokens self.new) result }
    {
        push(&mut self.expressions, e)?;
        self.first = None;
        self.items.clear();
        Ok(())
    }

    /// The piece that was read is this pattern.
    #[tactic(auto, using(crate::proofs::Walking::append_laws))]
    pub fn and_target(&mut self, q: Pattern) -> Result<(), ParseError>
        ensures { (tokens : List Token) → Moves (Ok (parsing.and_target (pattern_of q) (bracket_shown tokens self.old)))
            (bracket_shown tokens self.new) result }
    {
        push(&mut self.targets, q)?;
        self.first = None;
        self.items.clear();
        Ok(())
    }

    /// The piece that was read is this statement.
    #[tactic(auto, using(crate::proofs::Walking::append_laws))]
    #[inline(always)]
    pub fn and_statement(&mut self, s: Stmt) -> Result<(), ParseError>
        ensures { (tokens : List Token) → Moves (Ok (parsing.and_statement (stmt_of s) (bracket_shown tokens self.old)))
            (bracket_shown tokens self.new) result }
    {
        push(&mut self.statements, s)?;
        self.first = None;
        self.items.clear();
        Ok(())
    }

    /// The piece that was read is this header.
    pub fn and_header(&mut self, h: Header)
        ensures { (tokens : List Token) → bracket_shown tokens self.new ≡ parsing.and_header (header_of h) (bracket_shown tokens self.old) }
    {
        self.header = Some(h);
        self.first = None;
        self.items.clear();
    }

    /// Whether the first nonempty piece of a body is being read.
    pub fn is_first_piece(&self) -> bool
        ensures { result ≡ parsing.is_first_piece (option_map header_of self.now.header) (map stmt_of self.now.statements.items) }
    {
        self.header.is_none() && self.statements.is_empty()
    }

    /// The body that is being read ends.
    #[tactic(auto, using(bqn_syntax::specs::grammar::TreeEquations::tree_equations, crate::proofs::Walking::append_laws))]
    pub fn end_body(&mut self, alloc: Global) -> Result<(), Memory>
        ensures { IfOk result (λ done. (tokens : List Token) → bracket_shown tokens self.new ≡ parsing.and_body (bracket_shown tokens self.old)) }
    {
        let header = take_header(&mut self.header);
        let statements = taken(alloc, &mut self.statements)?;
        self.first = None;
        self.items.clear();
        let body = BodyTree {
            header,
            statements: Row::new(statements),
        };
        push(&mut self.done, body)
    }
}
