ghost use Rattle.std.specs.Prelude.{◌≡◌, [], ◌++◌, IfOk, OnOk};
ghost use Rattle.bqn_syntax.specs.scope.Bodies.{exports_it, exports_of};
ghost use Rattle.bqn_syntax.specs.scope.Scope.{definitions};
ghost use Rattle.bqn_scope.specs.Numbering.{body_shown, body_with, exported_names, exporting};
ghost use Rattle.bqn_scope.specs.Scopes.{known_in};
ghost use Rattle.bqn_scope.specs.Shown.{how_shown, mention_of, mentions_shown};
ghost use Rattle.bqn_scope.specs.Tokens.{names_of_tokens, tokens_shown};

use crate::defined::{Defined, name_of};
use crate::mention::{How, Mention};
use crate::scope::{definitions_in, slot};
use crate::spellings::Spellings;
use bqn_base::{Memory, Name, Row};
use std::alloc::Global;

/// A body's parent, which for the top body is the number of the session's names; its names by
/// their slots; and its exports with their slots, in the text order of the first token that
/// exports each.
#[derive(Drop)]
pub struct BodyNames {
    pub parent: u32,
    pub slots: Row<Name>,
    pub exports: Row<(Name, u32)>,
}

/// Whether a token exports its name.
fn exports_it(how: How) -> bool
    ensures { result ≡ exports_it (how_shown how) }
{
    match how {
        How::Exports | How::Shows => true,
        How::Reads | How::Defines | How::Changes => false,
    }
}

/// The names of a body by their slots.
#[tactic(auto, using(crate::proofs::Exporting::numbering_laws))]
fn slots(
    alloc: Global,
    outer: &Spellings,
    in_block: bool,
    defined: &Defined,
) -> Result<Vec<Name>, Memory>
    ensures { IfOk result (λ names. names.items ≡ known_in outer.now in_block ++ names_of_tokens (tokens_shown defined.now.places.tokens.items)) }
{
    let mut names = Vec::new(alloc);
    if !in_block {
        outer.append_to(&mut names)?;
    }
    defined.names.append_to(&mut names)?;
    Ok(names)
}

/// One more mention.
#[tactic(auto, using(crate::proofs::Exporting::numbering_laws))]
fn export(
    alloc: Global,
    outer: &Spellings,
    in_block: bool,
    defined: &Defined,
    exported: &mut Spellings,
    exports: &mut Vec<(Name, u32)>,
    mention: &Mention,
) -> Result<(), Memory>
    requires { exported.old ≡ exported_names exports.old.items }
    ensures names { OnOk result (exported.new ≡ exported_names exports.new.items) }
    ensures exports { OnOk result (exports.new.items
        ≡ exporting (known_in outer.now in_block ++ names_of_tokens (tokens_shown defined.now.places.tokens.items)) exports.old.items
        (mention_of mention.now)) }
{
    let Mention::Named(how, token) = mention else {
        return Ok(());
    };
    let name = name_of(token);
    if !exports_it(*how) || exported.contains(name) {
        return Ok(());
    }
    match slot(defined, in_block, outer, name) {
        Ok(Some(place)) => {
            let Ok(found) = u32::try_from(place) else {
                return Err(Memory);
            };
            exported.push(name)?;
            let copy = Name::new(alloc, name)?;
            exports.push((copy, found))?;
            Ok(())
        }
        Ok(None) => Ok(()),
        Err(_) => Err(Memory),
    }
}

/// The exports of a body, in the text order of the first token that exports each.
#[tactic(auto, using(crate::proofs::Exporting::numbering_laws))]
fn exports(
    alloc: Global,
    outer: &Spellings,
    in_block: bool,
    defined: &Defined,
    mentions: &[Mention],
) -> Result<Vec<(Name, u32)>, Memory>
    ensures { IfOk result (λ exports. exports.items
        ≡ exports_of (known_in outer.now in_block ++ names_of_tokens (tokens_shown defined.now.places.tokens.items)) (mentions_shown mentions.now) []) }
{
    let mut exported = Spellings::new(alloc);
    let mut exports = Vec::new(alloc);
    'mentions: for mention in mentions {
        export(
            alloc,
            outer,
            in_block,
            defined,
            &mut exported,
            &mut exports,
            mention,
        )?;
    }
    Ok(exports)
}

/// The names of a body with these mentions.
#[tactic(auto, using(crate::proofs::Exporting::numbering_laws))]
pub fn body_names(
    alloc: Global,
    outer: &Spellings,
    in_block: bool,
    parent: u32,
    mentions: &[Mention],
) -> Result<BodyNames, Memory>
    ensures { IfOk result (λ names. body_shown names
        ≡ body_with parent (known_in outer.now in_block ++ names_of_tokens (definitions (known_in outer.now in_block) (mentions_shown mentions.now)))
        (mentions_shown mentions.now)) }
{
    let defined = definitions_in(alloc, outer, in_block, mentions)?;
    let names = slots(alloc, outer, in_block, &defined)?;
    let exports = exports(alloc, outer, in_block, &defined, mentions)?;
    Ok(BodyNames {
        parent,
        slots: Row::new(names),
        exports: Row::new(exports),
    })
}
