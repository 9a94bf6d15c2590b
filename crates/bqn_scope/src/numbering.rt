ghost use Rattle.std.specs.Prelude.{◌≡◌, ◌++◌, OnOk, length};
ghost use Rattle.bqn_syntax.specs.scope.Bodies.{inside, inside_block, inside_mention, of_block};
ghost use Rattle.bqn_scope.specs.Numbering.{bodies_shown};
ghost use Rattle.bqn_scope.specs.Shown.{mention_of, mentions_shown, scopes_shown};

use crate::body_names::{BodyNames, body_names};
use crate::mention::{Mention, Own};
use crate::spellings::Spellings;
use bqn_base::Memory;
use std::alloc::Global;

/// Puts the bodies of the blocks in a body, which has this number, after others.
#[cycle(numbering)]
#[tactic(auto, using(crate::specs::Equations::of_mentions, crate::proofs::Exporting::numbering_laws))]
pub fn inside(
    alloc: Global,
    outer: &Spellings,
    number: u32,
    mentions: &[Mention],
    found: &mut Vec<BodyNames>,
) -> Result<(), Memory>
    ensures { OnOk result (bodies_shown found.new.items ≡ inside number (mentions_shown mentions.now) (bodies_shown found.old.items)) }
{
    'mentions: for mention in mentions {
        inside_mention(alloc, outer, number, mention, found)?;
    }
    Ok(())
}

/// Puts the bodies of a mentioned block, and of the blocks in it, after others.
#[cycle(numbering)]
#[tactic(auto, using(crate::specs::Equations::of_mentions, crate::proofs::Exporting::numbering_laws))]
fn inside_mention(
    alloc: Global,
    outer: &Spellings,
    number: u32,
    mention: &Mention,
    found: &mut Vec<BodyNames>,
) -> Result<(), Memory>
    ensures { OnOk result (bodies_shown found.new.items ≡ inside_mention number (mention_of mention.now) (bodies_shown found.old.items)) }
{
    match mention {
        Mention::Inner(bodies) => {
            let Ok(first) = u32::try_from(found.len()) else {
                return Err(Memory);
            };
            of_block(alloc, outer, number, bodies.list(), found)?;
            inside_block(alloc, outer, first, bodies.list(), found)
        }
        Mention::Named(_, _) | Mention::Special(_) | Mention::System(_) => Ok(()),
    }
}

/// Puts the bodies of the blocks in the bodies of a block, the first of which has this number,
/// after others.
#[cycle(numbering)]
#[tactic(auto, using(crate::specs::Equations::of_mentions, crate::proofs::Exporting::numbering_laws))]
fn inside_block(
    alloc: Global,
    outer: &Spellings,
    first: u32,
    bodies: &[Own],
    found: &mut Vec<BodyNames>,
) -> Result<(), Memory>
    ensures { OnOk result (bodies_shown found.new.items ≡ inside_block first (scopes_shown bodies.now) (bodies_shown found.old.items)) }
{
    let mut number = first;
    'bodies: for own in bodies {
        inside(alloc, outer, number, own.mentions.list(), found)?;
        let Some(next) = number.checked_add(1) else {
            return Err(Memory);
        };
        number = next;
    }
    Ok(())
}

/// Puts the bodies of one block after others.
#[tactic(auto, using(crate::specs::Equations::of_mentions, crate::proofs::Exporting::numbering_laws))]
fn of_block(
    alloc: Global,
    outer: &Spellings,
    parent: u32,
    bodies: &[Own],
    found: &mut Vec<BodyNames>,
) -> Result<(), Memory>
    ensures { OnOk result (bodies_shown found.new.items ≡ bodies_shown found.old.items ++ of_block parent (scopes_shown bodies.now)) }
{
    'bodies: for own in bodies {
        let names = body_names(alloc, outer, true, parent, own.mentions.list())?;
        found.push(names)?;
    }
    Ok(())
}
