ghost use Rattle.std.specs.Prelude.{◌≡◌};
ghost use Rattle.bqn_syntax.specs.grammar.Sorts.{role_tag};

use crate::tree::Arrow;
use bqn_base::Role;

/// The kind of a bracket.
#[derive(Clone, Copy, Debug, PartialEq, Eq)]
pub enum Bracket {
    /// `(` and `)`
    Round,
    /// `⟨` and `⟩`
    Angle,
    /// `[` and `]`
    Square,
    /// `{` and `}`
    Curly,
}

/// What a token does in a piece.
#[derive(Clone, Copy, Debug, PartialEq, Eq)]
pub enum Sort {
    Opens(Bracket),
    Closes(Bracket),
    /// `⋄`, `,` and the newline.
    Separates,
    Draws(Arrow),
    /// `‿`
    Joins,
    /// `.`
    Selects,
    /// `;`, which ends a body.
    Ends,
    /// `:`, which ends a header.
    Heads,
    /// `?`, which ends a predicate.
    Asks,
    /// `·`
    Skips,
    /// A literal, a name or a primitive.
    Stands,
}

/// The role of a part, or that of `·`.
#[derive(Clone, Copy, Debug, PartialEq, Eq)]
pub enum Tag {
    Subject,
    Function,
    Mod1,
    Mod2,
    Nothing,
}

impl Tag {
    /// The tag of a role.
    pub fn of(role: Role) -> Tag
        ensures { result ≡ role_tag role }
    {
        match role {
            Role::Subject => Tag::Subject,
            Role::Function => Tag::Function,
            Role::Mod1 => Tag::Mod1,
            Role::Mod2 => Tag::Mod2,
        }
    }
}

/// What a piece stands in.
#[derive(Clone, Copy, Debug, PartialEq, Eq)]
pub enum Inside {
    Program,
    Parens,
    List,
    /// A list that is a pattern.
    Pattern,
    /// A list that is a pattern of a header, whose leaves may be literals.
    HeaderPattern,
    /// `[..]`
    Merge,
    Block,
}
