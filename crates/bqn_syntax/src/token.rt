ghost use Rattle.std.specs.Prelude.{◌≡◌, IfOk};
ghost use Rattle.bqn_syntax.specs.grammar.Sorts.{sort_of, kind_tag};

use crate::sort::{Bracket, Sort, Tag};
use crate::tree::Arrow;
use bqn_base::{Memory, Name, Place, Role, Text};

/// A name that belongs to the block whose text it stands in.
#[derive(Clone, Copy, Debug, PartialEq, Eq)]
pub enum Special {
    /// `𝕨`
    Left,
    /// `𝕩`
    Right,
    /// `𝕤`
    Own,
    /// `𝕗`
    LeftOperand,
    /// `𝕘`
    RightOperand,
    /// `𝕣`
    Modifier,
}

/// What a token is. Names are without case and underscores, and their role is kept beside them.
#[derive(Debug, Drop)]
pub enum Kind {
    Number(i64),
    Char(char),
    Text(Text),
    Word(Name, Role),
    System(Name, Role),
    Special(Special, Role),
    /// A primitive: 44 functions from 0, 9 1-modifiers from 44, 11 2-modifiers from 53.
    Given(u8),
    Punct(char),
}

impl Kind {
    /// An identical kind.
    #[inline(always)]
    pub fn copy(&self) -> Result<Kind, Memory>
        ensures { IfOk result (λ kind. kind ≡ self.now) }
    {
        match self {
            Kind::Number(number) => Ok(Kind::Number(*number)),
            Kind::Char(c) => Ok(Kind::Char(*c)),
            Kind::Text(text) => Ok(Kind::Text(text.share()?)),
            Kind::Word(name, role) => Ok(Kind::Word(name.share()?, *role)),
            Kind::System(name, role) => Ok(Kind::System(name.share()?, *role)),
            Kind::Special(special, role) => Ok(Kind::Special(*special, *role)),
            Kind::Given(primitive) => Ok(Kind::Given(*primitive)),
            Kind::Punct(c) => Ok(Kind::Punct(*c)),
        }
    }

    /// What such a token does in a piece.
    pub fn sort(&self) -> Sort
        ensures { result ≡ sort_of self.now }
    {
        match self {
            Kind::Punct(c) => match *c {
                '(' => Sort::Opens(Bracket::Round),
                '⟨' => Sort::Opens(Bracket::Angle),
                '[' => Sort::Opens(Bracket::Square),
                '{' => Sort::Opens(Bracket::Curly),
                ')' => Sort::Closes(Bracket::Round),
                '⟩' => Sort::Closes(Bracket::Angle),
                ']' => Sort::Closes(Bracket::Square),
                '}' => Sort::Closes(Bracket::Curly),
                '←' => Sort::Draws(Arrow::Define),
                '⇐' => Sort::Draws(Arrow::Export),
                '↩' => Sort::Draws(Arrow::Change),
                '‿' => Sort::Joins,
                '.' => Sort::Selects,
                ';' => Sort::Ends,
                ':' => Sort::Heads,
                '?' => Sort::Asks,
                '·' => Sort::Skips,
                _ => Sort::Separates,
            },
            _ => Sort::Stands,
        }
    }

    /// The role of such a token as a part; a mark of punctuation has none.
    pub fn tag(&self) -> Tag
        ensures { result ≡ kind_tag self.now }
    {
        match self {
            Kind::Number(_) | Kind::Char(_) | Kind::Text(_) => Tag::Subject,
            Kind::Word(_, role) | Kind::System(_, role) | Kind::Special(_, role) => Tag::of(*role),
            Kind::Given(code) if *code < 44 => Tag::Function,
            Kind::Given(code) if *code < 53 => Tag::Mod1,
            Kind::Given(_) => Tag::Mod2,
            Kind::Punct(_) => Tag::Nothing,
        }
    }
}

/// A token and the place of its first code point.
#[derive(Debug, Drop)]
pub struct Token {
    pub kind: Kind,
    pub place: Place,
}

impl Token {
    /// An identical token.
    #[inline(always)]
    pub fn copy(&self) -> Result<Token, Memory>
        ensures { IfOk result (λ token. token ≡ self.now) }
    {
        Ok(Token {
            kind: self.kind.copy()?,
            place: self.place,
        })
    }
}
