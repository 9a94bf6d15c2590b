ghost use Rattle.std.specs.Prelude.{◌≡◌, true, Some};
ghost use Rattle.bqn_syntax.specs.grammar.Trees.{pattern_of};
ghost use Rattle.bqn_syntax.specs.grammar.Items as Items;
ghost use Rattle.bqn_headers.specs.Elements.{element_shown, group_shown, groups_shown, item_shown, items_shown};
ghost use Rattle.bqn_headers.specs.Grouping.{closed, grouping_shown, taken, with_element, with_joiner};
ghost use Rattle.bqn_headers.specs.Heading.{Finds, Moves};

use crate::element::{Element, Item, group_pattern};
use crate::error::HeadError;
use crate::queue::Queue;
use bqn_syntax::Pattern;
use std::alloc::Global;
use std::mem;

/// The groups of joined elements so far: those that are whole, the one that may go on (empty
/// before the first element), and whether a `‿` stands after it.
#[derive(Drop)]
struct Grouping {
    done: Queue<Queue<Element>>,
    current: Queue<Element>,
    joins: bool,
}

/// Puts a group after the others, unless it is empty.
#[tactic(auto, using(crate::proofs::Grouped::push_laws))]
fn put_group(groups: &mut Queue<Queue<Element>>, group: Queue<Element>) -> Result<(), HeadError>
    ensures { Moves (Some (closed (groups_shown groups.old) (group_shown group))) (groups_shown groups.new) result }
{
    if group.is_empty() {
        return Ok(());
    }
    groups.push(group)?;
    Ok(())
}

#[tactic(auto, using(crate::proofs::Grouped::push_laws))]
impl Grouping {
    fn take_element(&mut self, alloc: Global, element: Element) -> Result<(), HeadError>
        ensures { Moves (Some (with_element self.old.joins (groups_shown self.old.done) (group_shown self.old.current) (element_shown element)))
            (grouping_shown self.new) result }
    {
        if self.joins {
            self.current.push(element)?;
            self.joins = false;
            return Ok(());
        }
        let current = mem::replace(&mut self.current, Queue::new(alloc));
        put_group(&mut self.done, current)?;
        self.current.push(element)?;
        Ok(())
    }

    fn take_joiner(&mut self) -> Result<(), HeadError>
        ensures { Moves (with_joiner self.old.joins (groups_shown self.old.done) (group_shown self.old.current)) (grouping_shown self.new) result }
    {
        if self.joins || self.current.is_empty() {
            return Err(HeadError::Bad);
        }
        self.joins = true;
        Ok(())
    }

    fn take(&mut self, alloc: Global, item: Item) -> Result<(), HeadError>
        ensures { Moves (taken (grouping_shown self.old) (item_shown item)) (grouping_shown self.new) result }
    {
        match item {
            Item::Standing(element) => self.take_element(alloc, element),
            Item::Joining => self.take_joiner(),
        }
    }
}

/// The groups of joined elements that items are.
#[tactic(auto, using(crate::proofs::Grouped::group_laws))]
pub(crate) fn grouped(alloc: Global, items: Queue<Item>) -> Result<Queue<Queue<Element>>, HeadError>
    ensures { Finds (Items.groups (items_shown items)) groups_shown result }
{
    let mut items = items;
    let mut grouping = Grouping {
        done: Queue::new(alloc),
        current: Queue::new(alloc),
        joins: false,
    };
    'items: while let Some(item) = items.pop() {
        grouping.take(alloc, item)?;
    }
    let Grouping {
        done,
        current,
        joins,
    } = grouping;
    if joins {
        return Err(HeadError::Bad);
    }
    let mut groups = done;
    put_group(&mut groups, current)?;
    Ok(groups)
}

/// The pattern that the items of a piece are.
#[tactic(auto, using(crate::proofs::Grouped::only_laws))]
pub(crate) fn piece_pattern(alloc: Global, items: Queue<Item>) -> Result<Pattern, HeadError>
    ensures { Finds (Items.piece_pattern true (items_shown items)) pattern_of result }
{
    let groups = grouped(alloc, items)?;
    let Some(group) = groups.into_only() else {
        return Err(HeadError::Bad);
    };
    group_pattern(alloc, group)
}
