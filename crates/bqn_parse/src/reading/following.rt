ghost use Rattle.std.specs.Prelude.{◌≡◌, reverse};
ghost use Rattle.bqn_parse.specs.Following.{behind_by, behind_of, ends_before, ends_by};
ghost use Rattle.bqn_parse.specs.Views.{item_of, items_of};

use crate::draft::tag_of_draft;
use crate::item::{Element, Item};
use crate::tags::is_no_modifier;

/// What stands after an item: a joiner or a dot, which asks for more; an arrow; anything else.
#[derive(Clone, Copy)]
pub enum Behind {
    Asks,
    Draws,
    Else,
}

/// What this item is for the one before it.
#[inline(always)]
fn as_follower(item: &Item<'_>) -> Behind
    ensures { result ≡ behind_by (item_of item.now) }
{
    match item {
        Item::Joining | Item::Selecting => Behind::Asks,
        Item::Drawn(_) => Behind::Draws,
        Item::Standing(_) | Item::Wrong => Behind::Else,
    }
}

/// What the items that are left, the first of them last, are for the one before them.
#[tactic(auto, using(crate::proofs::Fused::behind_laws))]
#[inline(always)]
pub fn what_follows(left: &[Item<'_>]) -> Behind
    ensures { result ≡ behind_of (items_of (reverse left.now)) }
{
    match left.last() {
        Some(item) => as_follower(item),
        None => Behind::Else,
    }
}

/// Whether an element ends the operand before it, where this stands after the element.
#[inline(always)]
fn ends_operand(item: &Item<'_>, behind: Behind) -> bool
    ensures { result ≡ ends_by (item_of item.now) behind }
{
    match item {
        Item::Drawn(_) => true,
        Item::Standing(Element::Part(draft)) => match behind {
            Behind::Asks => false,
            Behind::Draws | Behind::Else => is_no_modifier(tag_of_draft(draft)),
        },
        Item::Standing(Element::List(_)) | Item::Joining | Item::Selecting | Item::Wrong => false,
    }
}

/// Whether these items, the first of them last, surely end the operand before them: no modifier is the first.
#[tactic(auto, using(crate::proofs::Fused::behind_laws))]
#[inline(always)]
pub fn is_before_no_modifier(left: &[Item<'_>]) -> bool
    ensures { result ≡ ends_before (items_of (reverse left.now)) }
{
    match left.split_last() {
        Some((item, more)) => ends_operand(item, what_follows(more)),
        None => true,
    }
}
