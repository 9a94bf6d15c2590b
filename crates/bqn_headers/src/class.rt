ghost use Rattle.std.specs.Prelude.{◌≡◌, map};
ghost use Rattle.std.specs.Option.{option_map};
ghost use Rattle.std.specs.List.{list_any, list_all};
ghost use Rattle.bqn_syntax.specs.grammar.Trees.{header_of};
ghost use Rattle.bqn_syntax.specs.grammar.Sorts as Sorts;
ghost use Rattle.bqn_syntax.specs.grammar.Classes as Classes;
ghost use Rattle.bqn_syntax.specs.grammar.Classes.{class_of, plain_last};
ghost use Rattle.bqn_headers.specs.Heading.{marks_shown};
ghost use Rattle.bqn_headers.specs.Marks.{has, is_called, mod1_class, mod2_class};

use crate::name::own_tag;
use bqn_syntax::{Class, Header, Tag};

/// What occurs in a body's own text: its header, whether it has a predicate, how many statements
/// stand after the last one, and in its statements `𝕨`, `𝕩` or `𝕤` of either role (`args`), `𝕗`
/// of either role or `𝕣` (`one`), `_𝕣` (`one_self`), `𝕘` of either role or `_𝕣_` (`two`).
#[derive(Drop)]
pub struct BodyMarks {
    pub header: Option<Header>,
    pub predicate: bool,
    pub statements: u32,
    pub args: bool,
    pub one: bool,
    pub one_self: bool,
    pub two: bool,
}

/// What a body may show of the class of its block.
#[derive(Clone, Copy, Debug, PartialEq, Eq)]
enum Mark {
    /// A name or a header of a 2-modifier.
    Two,
    /// `_𝕣` or the header of a 1-modifier.
    OneSelf,
    /// A name or a header of a 1-modifier.
    One,
    /// The header of a function.
    Function,
    /// A name or a header of a function.
    Called,
    /// A name or a header with arguments.
    Deferred,
}

fn same_tag(tag: Tag, other: Tag) -> bool
    ensures { result ≡ Sorts.same_tag tag other }
{
    tag == other
}

/// Whether a body's header is one of this role.
fn heads(tag: Tag, header: &Option<Header>) -> bool
    ensures { result ≡ Classes.heads tag (option_map header_of header.now) }
{
    match header {
        None => false,
        Some(header) => same_tag(tag, own_tag(&header.own.kind)),
    }
}

fn has_argument(header: &Option<Header>) -> bool
    ensures { result ≡ Classes.has_argument (option_map header_of header.now) }
{
    match header {
        None => false,
        Some(header) => header.right.is_some(),
    }
}

impl BodyMarks {
    fn has_two(&self) -> bool
        ensures { result ≡ Classes.has_two (marks_shown self.now) }
    {
        self.two || heads(Tag::Mod2, &self.header)
    }

    /// Whether it has `_𝕣` or the header of a 1-modifier.
    fn has_one_self(&self) -> bool
        ensures { result ≡ Classes.has_one_self (marks_shown self.now) }
    {
        self.one_self || heads(Tag::Mod1, &self.header)
    }

    fn has_one(&self) -> bool
        ensures { result ≡ Classes.has_one (marks_shown self.now) }
    {
        self.one || self.has_one_self()
    }

    fn has_function(&self) -> bool
        ensures { result ≡ Classes.has_function (marks_shown self.now) }
    {
        heads(Tag::Function, &self.header)
    }

    fn is_called(&self) -> bool
        ensures { result ≡ is_called (marks_shown self.now) }
    {
        self.args || self.has_function()
    }

    fn is_deferred(&self) -> bool
        ensures { result ≡ Classes.is_deferred (marks_shown self.now) }
    {
        self.args || has_argument(&self.header)
    }

    fn is_plain(&self) -> bool
        ensures { result ≡ Classes.is_plain (marks_shown self.now) }
    {
        self.header.is_none() && !self.predicate
    }

    fn has_statement(&self) -> bool
        ensures { result ≡ Classes.has_statement (marks_shown self.now) }
    {
        self.statements >= 1
    }

    fn has(&self, mark: Mark) -> bool
        ensures { result ≡ has mark (marks_shown self.now) }
    {
        match mark {
            Mark::Two => self.has_two(),
            Mark::OneSelf => self.has_one_self(),
            Mark::One => self.has_one(),
            Mark::Function => self.has_function(),
            Mark::Called => self.is_called(),
            Mark::Deferred => self.is_deferred(),
        }
    }
}

/// Whether a body has this mark.
fn any_has(bodies: &[BodyMarks], mark: Mark) -> bool
    ensures { result ≡ list_any (has mark) (map marks_shown bodies.now) }
{
    bodies.iter().any(|body| body.has(mark))
}

fn all_are_plain(bodies: &[BodyMarks]) -> bool
    ensures { result ≡ list_all Classes.is_plain (map marks_shown bodies.now) }
{
    bodies.iter().all(|body| body.is_plain())
}

fn all_have_a_statement(bodies: &[BodyMarks]) -> bool
    ensures { result ≡ list_all Classes.has_statement (map marks_shown bodies.now) }
{
    bodies.iter().all(|body| body.has_statement())
}

/// Whether plain bodies stand last, and are at most so many.
fn plain_stand_last(most: usize, bodies: &[BodyMarks]) -> bool
    ensures { result ≡ plain_last most (map marks_shown bodies.now) }
{
    'bodies: for (index, body) in bodies.iter().enumerate() {
        if body.is_plain() {
            return all_are_plain(bodies.split_at(index).1) && bodies.len() - index <= most;
        }
    }
    true
}

/// So many plain bodies may stand in a block.
fn most_plain(class: Class) -> usize
    ensures { result ≡ Classes.most_plain class }
{
    match class {
        Class::Function | Class::Mod1Deferred | Class::Mod2Deferred => 2,
        Class::Immediate | Class::Mod1 | Class::Mod2 => 1,
    }
}

/// The class, if each body has a statement and the plain ones stand where they may.
fn class_if(class: Class, bodies: &[BodyMarks]) -> Option<Class>
    ensures { result ≡ Classes.class_if class (map marks_shown bodies.now) }
{
    if all_have_a_statement(bodies) && plain_stand_last(most_plain(class), bodies) {
        Some(class)
    } else {
        None
    }
}

/// The class of a 1-modifier, or none where they break a rule.
fn mod1_class(bodies: &[BodyMarks]) -> Option<Class>
    ensures { result ≡ mod1_class (map marks_shown bodies.now) }
{
    if any_has(bodies, Mark::Function) {
        return None;
    }
    if any_has(bodies, Mark::Deferred) {
        return class_if(Class::Mod1Deferred, bodies);
    }
    class_if(Class::Mod1, bodies)
}

/// The class of a 2-modifier, or none where they break a rule.
fn mod2_class(bodies: &[BodyMarks]) -> Option<Class>
    ensures { result ≡ mod2_class (map marks_shown bodies.now) }
{
    if any_has(bodies, Mark::OneSelf) || any_has(bodies, Mark::Function) {
        return None;
    }
    if any_has(bodies, Mark::Deferred) {
        return class_if(Class::Mod2Deferred, bodies);
    }
    class_if(Class::Mod2, bodies)
}

/// The class of a block with these bodies, or none where they break a rule.
pub fn block_class(bodies: &[BodyMarks]) -> Option<Class>
    ensures { result ≡ class_of (map marks_shown bodies.now) }
{
    if any_has(bodies, Mark::Two) {
        return mod2_class(bodies);
    }
    if any_has(bodies, Mark::One) {
        return mod1_class(bodies);
    }
    if any_has(bodies, Mark::Called) {
        return class_if(Class::Function, bodies);
    }
    class_if(Class::Immediate, bodies)
}
