//! How many variables a body has, and what it exports.

ghost use Rattle.std.specs.Prelude.{◌≡◌, IfOk, length, map, slice_get};
ghost use Rattle.bqn_compile.specs.Bodies.{exports_code, names_in};
ghost use Rattle.bqn_compile.specs.Pools.{name_number};
ghost use Rattle.bqn_compile.specs.Walking.{names_of, setting_of};

use crate::pools::name_at;
use crate::walk::Known;
use bqn_base::{Memory, Name, Row};

#[tactic(auto, using(crate::proofs::Walks::walk_laws), unfolding(crate::specs::Walking::setting_of))]
fn export(known: &Known, e: &(Name, u32)) -> Result<(u32, u16), Memory>
    ensures { IfOk result (λ r. r ≡ (name_number (setting_of known.now).names e.now.0, e.now.1)) }
{
    let Ok(name) = u32::try_from(name_at(&known.pools.names, e.0.chars())) else {
        return Err(Memory);
    };
    match u16::try_from(e.1) {
        Ok(slot) => Ok((name, slot)),
        Err(_) => Err(Memory),
    }
}

fn exports(known: &Known, all: &[(Name, u32)]) -> Result<Row<(u32, u16)>, Memory>
    ensures { IfOk result (λ r. r ≡ exports_code (setting_of known.now).names all.now) }
{
    let mut made = Vec::new(known.pools.alloc);
    for e in all {
        let one = export(known, e)?;
        made.push(one)?;
    }
    Ok(Row::new(made))
}

/// Those of the body with this number.
#[tactic(auto, using(crate::proofs::Walks::walk_laws), unfolding(crate::specs::Walking::names_of, crate::specs::Walking::setting_of))]
pub fn own_names(known: &Known, number: u32) -> Result<(u16, Row<(u32, u16)>), Memory>
    ensures slots { IfOk result (λ r. r.0 ≡ length (names_in (slice_get (names_of known.now) number)).slots) }
    ensures exports { IfOk result (λ r. r.1 ≡ exports_code (setting_of known.now).names (names_in (slice_get (names_of known.now) number)).exports) }
{
    let Some(own) = known.names.get(number as usize) else {
        return Ok((0, Row::new(Vec::new(known.pools.alloc))));
    };
    let exports = exports(known, own.exports.list())?;
    match u16::try_from(own.slots.list().len()) {
        Ok(slots) => Ok((slots, exports)),
        Err(_) => Err(Memory),
    }
}
