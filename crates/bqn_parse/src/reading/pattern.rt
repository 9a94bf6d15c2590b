ghost use Rattle.std.specs.Prelude.{◌≡◌, IfOk, reverse};
ghost use Rattle.std.specs.Option.{option_map};
ghost use Rattle.bqn_syntax.specs.grammar.Items.{piece_pattern, group_pattern};
ghost use Rattle.bqn_syntax.specs.grammar.Trees.{pattern_of};
ghost use Rattle.bqn_parse.specs.Strands.{elements_of, ended, one_element, one_joiner, one_more, spelt, strung_of};
ghost use Rattle.bqn_parse.specs.Views.{element_of, item_of, items_of, when};

use crate::growth::push;
use crate::item::{Element, Item};
use crate::reading::strand::{element_pattern, element_patterns};
use bqn_base::Memory;
use bqn_syntax::Pattern;
use std::alloc::Global;
use std::mem;

/// Elements that are joined to what follows, and the element after them.
#[derive(Drop)]
struct Joined<'t> {
    elements: Vec<Element<'t>>,
    last: Option<Element<'t>>,
}

/// The pattern that joined elements are: one element, or several that are a strand.
#[tactic(auto, using(bqn_syntax::specs::grammar::TreeEquations::tree_equations, crate::proofs::Groups::group_laws))]
fn group<'t>(
    alloc: Global,
    literals: bool,
    elements: Vec<Element<'t>>,
) -> Result<Option<Pattern>, Memory>
    ensures { IfOk result (λ q. option_map pattern_of q ≡ group_pattern literals (elements_of elements.entry.items)) }
{
    let mut elements = elements;
    if elements.len() < 2 {
        return match elements.pop() {
            Some(element) => element_pattern(literals, element),
            None => Ok(None),
        };
    }
    match element_patterns(alloc, literals, elements) {
        Ok(Some(patterns)) => Ok(Some(Pattern::Strand(patterns))),
        Ok(None) => Ok(None),
        Err(error) => Err(error),
    }
}

/// An element, where nothing or a joiner stands before.
fn stand<'t>(row: &mut Joined<'t>, element: Element<'t>) -> bool
    ensures { when result (strung_of row.new) ≡ one_element (elements_of row.old.elements.items) (option_map element_of row.old.last)
        (element_of element.entry) }
{
    if row.last.is_some() {
        return false;
    }
    row.last = Some(element);
    true
}

/// A joiner, where an element stands before.
#[tactic(auto, using(crate::proofs::Walking::append_laws))]
fn join<'t>(row: &mut Joined<'t>) -> Result<bool, Memory>
    ensures { IfOk result (λ fine. when fine (strung_of row.new) ≡ one_joiner (elements_of row.old.elements.items) (option_map element_of row.old.last)) }
{
    match row.last.take() {
        None => Ok(false),
        Some(element) => {
            push(&mut row.elements, element)?;
            Ok(true)
        }
    }
}

/// One more item: elements and joiners alternate.
fn put<'t>(row: &mut Joined<'t>, item: Item<'t>) -> Result<bool, Memory>
    ensures { IfOk result (λ fine. when fine (strung_of row.new) ≡ one_more (strung_of row.old) (item_of item.entry)) }
{
    match item {
        Item::Standing(element) => Ok(stand(row, element)),
        Item::Joining => join(row),
        Item::Drawn(_) | Item::Selecting | Item::Wrong => Ok(false),
    }
}

/// The pattern of a piece that ends here.
fn finished<'t>(
    alloc: Global,
    literals: bool,
    row: &mut Joined<'t>,
) -> Result<Option<Pattern>, Memory>
    ensures { IfOk result (λ q. option_map pattern_of q ≡ ended literals (elements_of row.old.elements.items) (option_map element_of row.old.last)) }
{
    match row.last.take() {
        None => Ok(None),
        Some(element) => {
            push(&mut row.elements, element)?;
            let elements = mem::replace(&mut row.elements, Vec::new(alloc));
            group(alloc, literals, elements)
        }
    }
}

/// The items that are left, the first of them last, and then the end of the piece.
#[tactic(auto, using(crate::proofs::Groups::piece_laws, crate::proofs::Fused::turn_laws))]
fn read_all<'t>(
    alloc: Global,
    literals: bool,
    row: &mut Joined<'t>,
    items: &mut Vec<Item<'t>>,
) -> Result<Option<Pattern>, Memory>
    ensures { IfOk result (λ q. option_map pattern_of q ≡ spelt literals (strung_of row.old) (items_of (reverse items.old.items))) }
{
    'items: while let Some(item) = items.pop() {
        match put(row, item) {
            Ok(true) => {}
            Ok(false) => return Ok(None),
            Err(error) => return Err(error),
        }
    }
    finished(alloc, literals, row)
}

/// The pattern that a piece is, whose leaves may be literals where they are allowed, or none. The
/// items are used up.
#[tactic(auto, using(crate::proofs::Groups::piece_laws, crate::proofs::Fused::turn_laws))]
pub fn pattern<'t>(
    alloc: Global,
    literals: bool,
    items: &mut Vec<Item<'t>>,
) -> Result<Option<Pattern>, Memory>
    ensures { IfOk result (λ q. option_map pattern_of q ≡ piece_pattern literals (items_of items.old.items)) }
{
    let mut row = Joined {
        elements: Vec::new(alloc),
        last: None,
    };
    items.reverse();
    read_all(alloc, literals, &mut row, items)
}
