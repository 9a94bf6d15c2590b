ghost use Rattle.std.specs.Prelude.{◌≡◌, Some, [], ◌∷◌, map};
ghost use Rattle.std.specs.Option.{option_map};
ghost use Rattle.bqn_syntax.specs.grammar.Trees.{pattern_of};
ghost use Rattle.bqn_syntax.specs.grammar.Headers.{and_item, end_of_piece, header_step, list_closes, list_goes_on, lists, open_list, outermost};
ghost use Rattle.bqn_syntax.specs.grammar.Sorts.{sort_of};
ghost use Rattle.bqn_headers.specs.Elements.{item_shown, items_shown};
ghost use Rattle.bqn_headers.specs.Heading.{Moves};
ghost use Rattle.bqn_headers.specs.OpenLists.{lists_shown, open_shown, outer_shown};

use crate::element::{Element, Item};
use crate::error::HeadError;
use crate::groups::piece_pattern;
use crate::queue::Queue;
use bqn_base::Row;
use bqn_syntax::{Bracket, Pattern, Sort, Token};
use std::alloc::Global;
use std::mem;

/// A list that is open: its pieces so far, and the items of the piece that is being read.
#[derive(Drop)]
struct OpenList {
    pieces: Vec<Pattern>,
    items: Queue<Item>,
}

impl OpenList {
    fn new(alloc: Global) -> OpenList
        ensures { open_shown result ≡ open_list }
    {
        OpenList {
            pieces: Vec::new(alloc),
            items: Queue::new(alloc),
        }
    }

    /// Ends the piece that is being read; an empty one is none.
    #[tactic(auto, using(crate::proofs::Walking::piece_laws))]
    fn end_piece(&mut self, alloc: Global) -> Result<(), HeadError>
        ensures { Moves (end_of_piece (map pattern_of self.old.pieces.items) (items_shown self.old.items)) (open_shown self.new) result }
    {
        if self.items.is_empty() {
            return Ok(());
        }
        let items = mem::replace(&mut self.items, Queue::new(alloc));
        let pattern = piece_pattern(alloc, items)?;
        self.pieces.push(pattern)?;
        Ok(())
    }
}

/// The lists that are open: the innermost, and those around it, of which the header is the first.
#[derive(Drop)]
pub(crate) struct Lists {
    inner: OpenList,
    outer: Vec<OpenList>,
}

#[tactic(auto, using(bqn_syntax::specs::grammar::TreeEquations::tree_equations, crate::proofs::Walking::list_laws))]
impl Lists {
    pub(crate) fn new(alloc: Global) -> Lists
        ensures { lists_shown result ≡ lists open_list [] }
    {
        Lists {
            inner: OpenList::new(alloc),
            outer: Vec::new(alloc),
        }
    }

    /// Puts an item into the piece that is being read.
    fn push(&mut self, item: Item) -> Result<(), HeadError>
        ensures { Moves (Some (lists (and_item (open_shown self.old.inner) (item_shown item)) (outer_shown self.old.outer.items)))
            (lists_shown self.new) result }
    {
        self.inner.items.push(item)?;
        Ok(())
    }

    fn open_list(&mut self, alloc: Global) -> Result<(), HeadError>
        ensures { Moves (Some (lists open_list (open_shown self.old.inner ∷ outer_shown self.old.outer.items))) (lists_shown self.new) result }
    {
        let around = mem::replace(&mut self.inner, OpenList::new(alloc));
        self.outer.push(around)?;
        Ok(())
    }

    /// Closes the innermost list, which is then an element of the one around it.
    fn close_list(&mut self, alloc: Global) -> Result<(), HeadError>
        ensures { Moves (list_closes (outer_shown self.old.outer.items)
            (end_of_piece (map pattern_of self.old.inner.pieces.items) (items_shown self.old.inner.items))) (lists_shown self.new) result }
    {
        let Some(around) = self.outer.pop() else {
            return Err(HeadError::Bad);
        };
        self.inner.end_piece(alloc)?;
        let closed = mem::replace(&mut self.inner, around);
        self.push(Item::Standing(Element::List(Pattern::List(Row::new(closed.pieces)))))
    }

    /// Ends a piece of the innermost list; the header itself has no pieces.
    fn separate(&mut self, alloc: Global) -> Result<(), HeadError>
        ensures { Moves (list_goes_on (outer_shown self.old.outer.items)
            (end_of_piece (map pattern_of self.old.inner.pieces.items) (items_shown self.old.inner.items))) (lists_shown self.new) result }
    {
        if self.outer.is_empty() {
            return Err(HeadError::Bad);
        }
        self.inner.end_piece(alloc)
    }

    /// Takes one more token.
    pub(crate) fn take(&mut self, alloc: Global, token: &Token) -> Result<(), HeadError>
        ensures { Moves (header_step (sort_of token.now.kind) (lists_shown self.old) token.now) (lists_shown self.new) result }
    {
        match token.kind.sort() {
            Sort::Stands => self.push(Item::Standing(Element::Leaf(token.copy()?))),
            Sort::Skips => self.push(Item::Standing(Element::Skip(token.place))),
            Sort::Joins => self.push(Item::Joining),
            Sort::Opens(Bracket::Angle) => self.open_list(alloc),
            Sort::Closes(Bracket::Angle) => self.close_list(alloc),
            Sort::Separates => self.separate(alloc),
            _ => Err(HeadError::Bad),
        }
    }

    /// The items of the header, unless a list is open.
    pub(crate) fn into_items(self) -> Option<Queue<Item>>
        ensures { option_map items_shown result ≡ outermost (open_shown self.inner) (outer_shown self.outer.items) }
    {
        let Lists { inner, outer } = self;
        if !outer.is_empty() {
            return None;
        }
        Some(inner.items)
    }
}
