//! The places of blocks among the blocks so far.

ghost use Rattle.std.specs.Prelude.{◌≡◌, [], OnOk, IfOk, length};
ghost use Rattle.bqn_compile.specs.Walking.{filled, onward, reserved};

use crate::walk::{Known, Walk};
use bqn_base::{Memory, Row};
use bqn_code::{Block, Body};
use bqn_syntax::Class;

/// A place for a block behind those so far, before those inside it.
#[tactic(auto, using(crate::proofs::Walks::walk_laws), unfolding(crate::specs::Walking::onward, crate::specs::Walking::reserved))]
pub fn reserve(known: &Known, class: Class, parent: u32, out: &mut Walk) -> Result<usize, Memory>
    ensures place { IfOk result (λ place. place ≡ length out.old.blocks.items) }
    ensures walk { OnOk result (onward out.new ≡ reserved (record { class = class; parent = parent; bodies = [] }) (onward out.old)) }
{
    let place = out.blocks.len();
    out.blocks.push(Block {
        class,
        parent,
        bodies: Row::new(Vec::new(known.pools.alloc)),
    })?;
    Ok(place)
}

/// The bodies of the block at this place.
pub fn fill(out: &mut Walk, place: usize, bodies: Row<Body>)
    ensures { onward out.new ≡ filled place bodies (onward out.old) }
{
    if let Some(block) = out.blocks.get_mut(place) {
        block.bodies = bodies;
    }
}
