ghost use Rattle.std.specs.Prelude.{◌≡◌, ◌∷◌, ◌++◌, IfOk, OnOk, IsTrue};
ghost use Rattle.std.specs.List.{list_all};
ghost use Rattle.bqn_base.specs.Names.{is_name_character};
ghost use Rattle.bqn_syntax.specs.scope.Scope.{defines, definitions, has, is_again, name_of};
ghost use Rattle.bqn_scope.specs.Defining.{defining};
ghost use Rattle.bqn_scope.specs.Shown.{how_shown, mention_of, mentions_shown};
ghost use Rattle.bqn_scope.specs.Tokens.{known_names, names_of_tokens, tokens_shown};

use crate::mention::{How, Mention};
use crate::places::Places;
use crate::spellings::Spellings;
use bqn_base::Memory;
use bqn_syntax::{Kind, Token};
use std::alloc::Global;

/// The names that a body defines, each with the first token that defines it, in text order.
#[derive(Drop)]
pub struct Defined<'a> {
    pub names: Spellings,
    pub places: Places<'a>,
    ghost named: { names ≡ names_of_tokens (tokens_shown places.tokens.items) },
}

/// Whether a token defines its name.
pub fn defines(how: How) -> bool
    ensures { result ≡ defines (how_shown how) }
{
    match how {
        How::Defines | How::Exports => true,
        How::Reads | How::Changes | How::Shows => false,
    }
}

/// The spelling of a token's name; none of another token.
pub fn name_of(token: &Token) -> &[char]
    ensures value { result.now ≡ name_of token.now }
    ensures alphabet { IsTrue (list_all is_name_character result.now) }
{
    match &token.kind {
        Kind::Word(name, _) => name.chars(),
        Kind::System(name, _) => name.chars(),
        _ => &[],
    }
}

/// Whether a name is known before a body.
fn is_known(known: Option<&Spellings>, name: &[char]) -> bool
    ensures { result ≡ has (known_names known.entry) name.now }
{
    match known {
        Some(names) => names.contains(name),
        None => false,
    }
}

/// One more mention.
#[tactic(auto, using(crate::proofs::Defining::defining_laws))]
fn define<'a>(
    known: Option<&Spellings>,
    names: &mut Spellings,
    tokens: &mut Vec<&'a Token>,
    mention: &Mention<'a>,
) -> Result<(), Memory>
    requires { names.old ≡ names_of_tokens (tokens_shown tokens.old.items) }
    ensures names { OnOk result (names.new ≡ names_of_tokens (tokens_shown tokens.new.items)) }
    ensures tokens { OnOk result (tokens_shown tokens.new.items ≡ defining (known_names known.entry) (tokens_shown tokens.old.items) (mention_of mention.now)) }
{
    let Mention::Named(how, token) = mention else {
        return Ok(());
    };
    let name = name_of(token);
    if !defines(*how) || names.contains(name) || is_known(known, name) {
        return Ok(());
    }
    names.push(name)?;
    tokens.push(token)?;
    Ok(())
}

/// The names that a body defines, but for those that are known before.
#[tactic(auto, using(crate::proofs::Defining::defining_laws))]
pub fn definitions<'a>(
    alloc: Global,
    known: Option<&Spellings>,
    mentions: &[Mention<'a>],
) -> Result<Defined<'a>, Memory>
    ensures { IfOk result (λ defined. tokens_shown defined.places.tokens.items ≡ definitions (known_names known.entry) (mentions_shown mentions.now)) }
{
    let mut names = Spellings::new(alloc);
    let mut tokens = Vec::new(alloc);
    'mentions: for mention in mentions {
        define(known, &mut names, &mut tokens, mention)?;
    }
    let places = Places::new(alloc, tokens)?;
    Ok(Defined { names, places })
}
