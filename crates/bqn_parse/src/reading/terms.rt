ghost use Rattle.std.specs.Prelude.{◌≡◌, ◌<◌, IfOk, IsTrue, [], ◌∷◌, length, reverse};
ghost use Rattle.std.specs.Option.{option_and_then, option_map};
ghost use Rattle.bqn_syntax.specs.grammar.Expressions as expressions;
ghost use Rattle.bqn_syntax.specs.grammar.Items as items;
ghost use Rattle.bqn_syntax.specs.grammar.Units.{bound};
ghost use Rattle.bqn_parse.specs.Drafts.{draft_of, field_of};
ghost use Rattle.bqn_parse.specs.Fused.{draw, drawn, ended, join, piece, put, select, stand, units_if, units_with, with_term};
ghost use Rattle.bqn_parse.specs.declared.reading.terms.Reading.TheVariants as readings;
ghost use Rattle.bqn_parse.specs.Grouping.{grouping_shown, settled};
ghost use Rattle.bqn_parse.specs.Strands.{elements_of, reader_of, reading_of};
ghost use Rattle.bqn_parse.specs.Views.{backward, element_of, item_of, items_of, when};

use crate::draft::{Draft, Field, boxed, part, tag_of_draft};
use crate::growth::push;
use crate::item::{Element, Item};
use crate::reading::following::{Behind, is_before_no_modifier, what_follows};
use crate::reading::grouping::{Binding, Grouping, beside, bind_part, bind_settled, closed};
use crate::reading::strand::{element_parts, element_patterns};
use crate::unit::Unit;
use bqn_base::Memory;
use bqn_syntax::{Arrow, Kind, Pattern, Tag, Token};
use std::alloc::Global;
use std::mem;

/// What is being read: nothing; an element; what a joiner or a dot asks for.
#[derive(Drop)]
enum Reading<'t> {
    Between,
    At(Element<'t>),
    Joined,
    Selected(Draft<'t>),
}

/// The units so far; what is being read, and the elements that are joined to it.
#[derive(Drop)]
struct Reader<'t> {
    grouping: Grouping<'t>,
    joined: Vec<Element<'t>>,
    reading: Reading<'t>,
}

/// The strand of several elements.
#[tactic(auto, using(bqn_syntax::specs::grammar::TreeEquations::tree_equations, crate::proofs::Readers::strand_laws))]
fn plain_strand<'t>(
    alloc: Global,
    grouping: &mut Grouping<'t>,
    joined: Vec<Element<'t>>,
    element: Element<'t>,
) -> Result<bool, Memory>
    requires { 0 < length joined.items }
    ensures { IfOk result (λ fine. when fine (grouping_shown grouping.new)
        ≡ with_term (grouping_shown grouping.old) (items.plain_term (elements_of joined.entry.items) (element_of element.entry))) }
{
    let mut elements = joined;
    push(&mut elements, element)?;
    match element_parts(alloc, elements) {
        Ok(Some(parts)) => {
            let strand = Draft::Strand(boxed(alloc, parts)?);
            bind_part(alloc, grouping, strand)
        }
        Ok(None) => Ok(false),
        Err(error) => Err(error),
    }
}

/// The pattern of several elements.
#[tactic(auto, using(bqn_syntax::specs::grammar::TreeEquations::tree_equations, crate::proofs::Readers::strand_laws))]
fn aimed_strand<'t>(
    alloc: Global,
    grouping: &mut Grouping<'t>,
    joined: Vec<Element<'t>>,
    element: Element<'t>,
) -> Result<bool, Memory>
    requires { 0 < length joined.items }
    ensures { IfOk result (λ fine. when fine (grouping_shown grouping.new)
        ≡ with_term (grouping_shown grouping.old) (items.aimed_term (elements_of joined.entry.items) (element_of element.entry))) }
{
    let mut elements = joined;
    push(&mut elements, element)?;
    match element_patterns(alloc, false, elements) {
        Ok(Some(patterns)) => {
            let strand = boxed(alloc, Pattern::Strand(patterns))?;
            beside(grouping, Unit::Aim(strand))
        }
        Ok(None) => Ok(false),
        Err(error) => Err(error),
    }
}

/// An element by itself, where no arrow follows.
#[tactic(auto, using(bqn_syntax::specs::grammar::TreeEquations::tree_equations))]
#[inline(always)]
fn plain_alone<'t>(
    alloc: Global,
    grouping: &mut Grouping<'t>,
    element: Element<'t>,
) -> Result<bool, Memory>
    ensures { IfOk result (λ fine. when fine (grouping_shown grouping.new)
        ≡ with_term (grouping_shown grouping.old) (items.plain_term [] (element_of element.entry))) }
{
    match element {
        Element::Part(part) => bind_part(alloc, grouping, part),
        Element::List(_) => Ok(false),
    }
}

/// An element by itself, directly before an arrow: a list there is a pattern.
#[tactic(auto, using(bqn_syntax::specs::grammar::TreeEquations::tree_equations))]
#[inline(always)]
fn aimed_alone<'t>(
    alloc: Global,
    grouping: &mut Grouping<'t>,
    element: Element<'t>,
) -> Result<bool, Memory>
    ensures { IfOk result (λ fine. when fine (grouping_shown grouping.new)
        ≡ with_term (grouping_shown grouping.old) (items.aimed_term [] (element_of element.entry))) }
{
    match element {
        Element::Part(Draft::List(_)) => Ok(false),
        Element::Part(part) => bind_part(alloc, grouping, part),
        Element::List(pattern) => beside(grouping, Unit::Aim(pattern)),
    }
}

/// An element where no arrow follows, after those that are joined to it.
#[inline(never)]
fn plain_term<'t>(
    alloc: Global,
    grouping: &mut Grouping<'t>,
    joined: &mut Vec<Element<'t>>,
    element: Element<'t>,
) -> Result<bool, Memory>
    ensures { IfOk result (λ fine. when fine (grouping_shown grouping.new)
        ≡ with_term (grouping_shown grouping.old) (items.plain_term (elements_of joined.old.items) (element_of element.entry))) }
{
    if joined.is_empty() {
        return plain_alone(alloc, grouping, element);
    }
    let joined = mem::replace(joined, Vec::new(alloc));
    plain_strand(alloc, grouping, joined, element)
}

/// An element directly before an arrow, after those that are joined to it: a list or a strand there is a pattern.
#[inline(never)]
fn aimed_term<'t>(
    alloc: Global,
    grouping: &mut Grouping<'t>,
    joined: &mut Vec<Element<'t>>,
    element: Element<'t>,
) -> Result<bool, Memory>
    ensures { IfOk result (λ fine. when fine (grouping_shown grouping.new)
        ≡ with_term (grouping_shown grouping.old) (items.aimed_term (elements_of joined.old.items) (element_of element.entry))) }
{
    if joined.is_empty() {
        return aimed_alone(alloc, grouping, element);
    }
    let joined = mem::replace(joined, Vec::new(alloc));
    aimed_strand(alloc, grouping, joined, element)
}

/// One more name after a part.
#[tactic(auto, using(bqn_syntax::specs::grammar::TreeEquations::tree_equations))]
fn with_name<'t>(alloc: Global, draft: Draft<'t>, name: &Token) -> Result<Field, Memory>
    ensures { IfOk result (λ field. field_of field ≡ items.with_name (draft_of draft.entry) name.now) }
{
    let mut field = match draft {
        Draft::Field(field) => field.into_inner(),
        draft => Field {
            base: part(alloc, draft)?,
            names: Vec::new(alloc),
        },
    };
    push(&mut field.names, name.copy()?)?;
    Ok(field)
}

/// The field that a dot asks for.
#[tactic(auto, using(bqn_syntax::specs::grammar::TreeEquations::tree_equations))]
fn selected<'t>(
    alloc: Global,
    reader: &mut Reader<'t>,
    draft: Draft<'t>,
    element: Element<'t>,
) -> Result<bool, Memory>
    ensures { IfOk result (λ fine. when fine (reader_of reader.new)
        ≡ stand (grouping_shown reader.old.grouping) (items.Selected (elements_of reader.old.joined.items) (draft_of draft.entry)) (element_of element.entry)) }
{
    let name = match element {
        Element::Part(Draft::Token(name)) => name,
        Element::Part(_) => return Ok(false),
        Element::List(_) => return Ok(false),
    };
    if !matches!(&name.kind, Kind::Word(..)) {
        return Ok(false);
    }
    let field = boxed(alloc, with_name(alloc, draft, name)?)?;
    reader.reading = Reading::At(Element::Part(Draft::Field(field)));
    Ok(true)
}

/// An element that nothing is joined to.
fn begin<'t>(reader: &mut Reader<'t>, element: Element<'t>)
    ensures { reader_of reader.new ≡ piece (grouping_shown reader.old.grouping) (items.At [] (element_of element.entry)) }
{
    reader.joined.clear();
    reader.reading = Reading::At(element);
}

/// An element directly after another one.
fn stand_behind<'t>(
    alloc: Global,
    reader: &mut Reader<'t>,
    before: Element<'t>,
    element: Element<'t>,
) -> Result<bool, Memory>
    ensures { IfOk result (λ fine. when fine (reader_of reader.new)
        ≡ stand (grouping_shown reader.old.grouping) (items.At (elements_of reader.old.joined.items) (element_of before.entry)) (element_of element.entry)) }
{
    if !plain_term(alloc, &mut reader.grouping, &mut reader.joined, before)? {
        return Ok(false);
    }
    begin(reader, element);
    Ok(true)
}

/// An element, where one may stand.
#[inline(never)]
fn stand<'t>(alloc: Global, reader: &mut Reader<'t>, element: Element<'t>) -> Result<bool, Memory>
    ensures { IfOk result (λ fine. when fine (reader_of reader.new)
        ≡ stand (grouping_shown reader.old.grouping) (reading_of (elements_of reader.old.joined.items) reader.old.reading) (element_of element.entry)) }
{
    match mem::replace(&mut reader.reading, Reading::Between) {
        Reading::Between => {
            begin(reader, element);
            Ok(true)
        }
        Reading::At(before) => stand_behind(alloc, reader, before, element),
        Reading::Joined => {
            reader.reading = Reading::At(element);
            Ok(true)
        }
        Reading::Selected(part) => selected(alloc, reader, part, element),
    }
}

/// A joiner.
#[tactic(auto, using(crate::proofs::Walking::append_laws))]
fn join<'t>(reader: &mut Reader<'t>) -> Result<bool, Memory>
    ensures { IfOk result (λ fine. when fine (reader_of reader.new)
        ≡ join (grouping_shown reader.old.grouping) (reading_of (elements_of reader.old.joined.items) reader.old.reading)) }
{
    match mem::replace(&mut reader.reading, Reading::Joined) {
        Reading::At(element) => {
            push(&mut reader.joined, element)?;
            Ok(true)
        }
        Reading::Between | Reading::Joined | Reading::Selected(_) => Ok(false),
    }
}

/// A dot. A field is one of a subject.
fn select<'t>(reader: &mut Reader<'t>) -> bool
    ensures { when result (reader_of reader.new) ≡ select (grouping_shown reader.old.grouping)
        (reading_of (elements_of reader.old.joined.items) reader.old.reading) }
{
    match mem::replace(&mut reader.reading, Reading::Between) {
        Reading::At(Element::Part(part)) => {
            if tag_of_draft(&part) != Tag::Subject {
                return false;
            }
            reader.reading = Reading::Selected(part);
            true
        }
        Reading::At(Element::List(_)) => false,
        Reading::Between | Reading::Joined | Reading::Selected(_) => false,
    }
}

/// An arrow directly after an element.
fn draw_behind<'t>(
    alloc: Global,
    grouping: &mut Grouping<'t>,
    joined: &mut Vec<Element<'t>>,
    before: Element<'t>,
    arrow: Arrow,
) -> Result<bool, Memory>
    ensures { IfOk result (λ fine. when fine (grouping_shown grouping.new)
        ≡ option_and_then (λ next. drawn arrow next)
        (with_term (grouping_shown grouping.old) (items.aimed_term (elements_of joined.old.items) (element_of before.entry)))) }
{
    if !aimed_term(alloc, grouping, joined, before)? {
        return Ok(false);
    }
    beside(grouping, Unit::Arrow(arrow))
}

/// An arrow.
#[tactic(auto, using(crate::proofs::Fused::draw_laws))]
fn draw<'t>(alloc: Global, reader: &mut Reader<'t>, arrow: Arrow) -> Result<bool, Memory>
    ensures { IfOk result (λ fine. when fine (reader_of reader.new)
        ≡ draw (grouping_shown reader.old.grouping) (reading_of (elements_of reader.old.joined.items) reader.old.reading) arrow) }
{
    match mem::replace(&mut reader.reading, Reading::Between) {
        Reading::Between => beside(&mut reader.grouping, Unit::Arrow(arrow)),
        Reading::At(before) => draw_behind(
            alloc,
            &mut reader.grouping,
            &mut reader.joined,
            before,
            arrow,
        ),
        Reading::Joined | Reading::Selected(_) => Ok(false),
    }
}

/// One more item, whatever stands after it.
#[inline(never)]
fn put_any<'t>(alloc: Global, reader: &mut Reader<'t>, item: Item<'t>) -> Result<bool, Memory>
    ensures { IfOk result (λ fine. when fine (reader_of reader.new) ≡ put (reader_of reader.old) (item_of item.entry)) }
{
    match item {
        Item::Standing(element) => stand(alloc, reader, element),
        Item::Drawn(arrow) => draw(alloc, reader, arrow),
        Item::Joining => join(reader),
        Item::Selecting => Ok(select(reader)),
        Item::Wrong => Ok(false),
    }
}

/// Whether nothing is being read.
#[inline(always)]
fn is_between(reading: &Reading<'_>) -> bool
    ensures { IsTrue result → reading.now ≡ readings.Between }
{
    matches!(reading, Reading::Between)
}

/// An element by itself, where neither an arrow nor a modifier follows.
#[inline(always)]
fn plain_settled<'t>(
    alloc: Global,
    grouping: &mut Grouping<'t>,
    element: Element<'t>,
) -> Result<bool, Memory>
    ensures { IfOk result (λ fine. when fine (grouping_shown grouping.new)
        ≡ option_map settled (with_term (grouping_shown grouping.old) (items.plain_term [] (element_of element.entry)))) }
{
    match element {
        Element::Part(part) => bind_settled(alloc, grouping, part),
        Element::List(_) => Ok(false),
    }
}

/// An element by itself, directly before an arrow.
#[tactic(auto, using(bqn_syntax::specs::grammar::TreeEquations::tree_equations, crate::proofs::Settled::beside_laws))]
#[inline(always)]
fn aimed_settled<'t>(
    alloc: Global,
    grouping: &mut Grouping<'t>,
    element: Element<'t>,
) -> Result<bool, Memory>
    ensures { IfOk result (λ fine. when fine (grouping_shown grouping.new)
        ≡ option_map settled (with_term (grouping_shown grouping.old) (items.aimed_term [] (element_of element.entry)))) }
{
    match element {
        Element::Part(Draft::List(_)) => Ok(false),
        Element::Part(part) => bind_settled(alloc, grouping, part),
        Element::List(pattern) => beside(grouping, Unit::Aim(pattern)),
    }
}

/// An element that nothing asks for, before these items: it is bound at once where nothing is joined to it.
#[tactic(auto, using(crate::proofs::Fused::eager_laws, crate::proofs::Settled::settled_laws))]
#[inline(always)]
fn stand_first<'t>(
    alloc: Global,
    reader: &mut Reader<'t>,
    element: Element<'t>,
    left: &[Item<'t>],
) -> Result<bool, Memory>
    requires { reader.old.reading ≡ readings.Between }
    ensures { IfOk result (λ fine. units_if fine (reader_of reader.new) (items_of (reverse left.now))
        ≡ units_with (reader_of reader.old) (items.Standing (element_of element.entry) ∷ items_of (reverse left.now))) }
{
    match what_follows(left) {
        Behind::Asks => {
            begin(reader, element);
            Ok(true)
        }
        Behind::Draws => aimed_settled(alloc, &mut reader.grouping, element),
        Behind::Else => {
            if is_before_no_modifier(left) {
                plain_settled(alloc, &mut reader.grouping, element)
            } else {
                plain_alone(alloc, &mut reader.grouping, element)
            }
        }
    }
}

/// One more item, before these.
#[tactic(auto, using(crate::proofs::Fused::eager_laws))]
#[inline(always)]
fn put<'t>(
    alloc: Global,
    reader: &mut Reader<'t>,
    item: Item<'t>,
    left: &[Item<'t>],
) -> Result<bool, Memory>
    ensures { IfOk result (λ fine. units_if fine (reader_of reader.new) (items_of (reverse left.now))
        ≡ units_with (reader_of reader.old) (item_of item.entry ∷ items_of (reverse left.now))) }
{
    if !is_between(&reader.reading) {
        return put_any(alloc, reader, item);
    }
    match item {
        Item::Standing(element) => stand_first(alloc, reader, element, left),
        Item::Drawn(arrow) => beside(&mut reader.grouping, Unit::Arrow(arrow)),
        Item::Joining | Item::Selecting | Item::Wrong => Ok(false),
    }
}

/// The element that is read last ends.
fn end_behind<'t>(
    alloc: Global,
    grouping: &mut Grouping<'t>,
    joined: &mut Vec<Element<'t>>,
    last: Element<'t>,
) -> Result<bool, Memory>
    ensures { IfOk result (λ fine. when fine (backward grouping.new.units.items)
        ≡ option_and_then (λ next. bound next) (with_term (grouping_shown grouping.old)
        (items.plain_term (elements_of joined.old.items) (element_of last.entry)))) }
{
    if !plain_term(alloc, grouping, joined, last)? {
        return Ok(false);
    }
    closed(grouping)
}

/// The piece ends here.
fn finished<'t>(alloc: Global, reader: &mut Reader<'t>) -> Result<bool, Memory>
    ensures { IfOk result (λ fine. when fine (backward reader.new.grouping.units.items)
        ≡ ended (grouping_shown reader.old.grouping) (reading_of (elements_of reader.old.joined.items) reader.old.reading)) }
{
    match mem::replace(&mut reader.reading, Reading::Between) {
        Reading::Between => closed(&mut reader.grouping),
        Reading::At(last) => end_behind(alloc, &mut reader.grouping, &mut reader.joined, last),
        Reading::Joined | Reading::Selected(_) => Ok(false),
    }
}

/// The items that are left, the first of them last, and then the end of the piece.
#[tactic(auto, using(crate::proofs::Fused::loop_laws, crate::proofs::Fused::turn_laws))]
fn read_all<'t>(
    alloc: Global,
    reader: &mut Reader<'t>,
    items: &mut Vec<Item<'t>>,
) -> Result<bool, Memory>
    ensures { IfOk result (λ fine. when fine (backward reader.new.grouping.units.items)
        ≡ units_with (reader_of reader.old) (items_of (reverse items.old.items))) }
{
    'items: while let Some(item) = items.pop() {
        match put(alloc, reader, item, items.as_slice()) {
            Ok(true) => {}
            Ok(false) => return Ok(false),
            Err(error) => return Err(error),
        }
    }
    finished(alloc, reader)
}

/// The units of a piece in order, in place of those that were there, where its items have such a form. The items
/// are used up.
#[tactic(auto, using(crate::proofs::Fused::loop_laws, crate::proofs::Fused::turn_laws))]
pub fn units_in<'t>(
    alloc: Global,
    items: &mut Vec<Item<'t>>,
    units: &mut Vec<Unit<'t>>,
) -> Result<bool, Memory>
    ensures { IfOk result (λ fine. when fine (backward units.new.items) ≡ expressions.units_in (items_of items.old.items)) }
{
    units.clear();
    let mut reader = Reader {
        grouping: Grouping {
            units: mem::replace(units, Vec::new(alloc)),
            binding: Binding::Free,
        },
        joined: Vec::new(alloc),
        reading: Reading::Between,
    };
    items.reverse();
    let fine = read_all(alloc, &mut reader, items)?;
    let Reader { grouping, .. } = reader;
    *units = grouping.units;
    Ok(fine)
}
