ghost use Rattle.std.specs.Prelude.{◌≡◌, ◌++◌, [], ◌∷◌, IfOk, OnOk, ◌<◌};
ghost use Rattle.std.specs.Vec.{vec_capacity, vec_len};

use bqn_base::Memory;
use std::alloc::Global;

/// Room for one more.
#[inline(never)]
fn grow<T>(all: &mut Vec<T>) -> Result<(), Memory>
    ensures items { all.new.items ≡ all.old.items }
    ensures room { OnOk result (vec_len all.new < vec_capacity all.new) }
{
    match all.reserve(1) {
        Ok(()) => Ok(()),
        Err(_) => Err(Memory),
    }
}

/// One more at the end.
#[inline(always)]
pub fn push<T: Drop>(all: &mut Vec<T>, one: T) -> Result<(), Memory>
    ensures { OnOk result (all.new.items ≡ all.old.items ++ one ∷ []) }
{
    if all.len() == all.capacity() {
        grow(all)?;
    }
    all.push_reserved(one);
    Ok(())
}

/// Room for as many more as there are, and at least for one.
#[inline(never)]
fn double<T>(all: &mut Vec<T>) -> Result<(), Memory>
    ensures items { all.new.items ≡ all.old.items }
    ensures room { OnOk result (vec_len all.new < vec_capacity all.new) }
{
    match all.reserve_exact(all.len().max(1)) {
        Ok(()) => Ok(()),
        Err(_) => Err(Memory),
    }
}

/// One more at the end of a list that is mostly short and is kept: its room doubles from one on.
#[inline(always)]
pub fn append<T: Drop>(all: &mut Vec<T>, one: T) -> Result<(), Memory>
    ensures { OnOk result (all.new.items ≡ all.old.items ++ one ∷ []) }
{
    if all.len() == all.capacity() {
        double(all)?;
    }
    all.push_reserved(one);
    Ok(())
}

/// An empty list with room for so many elements.
pub fn with_room<T: Drop>(alloc: Global, room: usize) -> Result<Vec<T>, Memory>
    ensures { IfOk result (λ all. all.items ≡ []) }
{
    match Vec::with_capacity(alloc, room) {
        Ok(all) => Ok(all),
        Err(_) => Err(Memory),
    }
}

/// What a list holds, with no room to spare; the room of the list stays with it.
pub fn taken<T: Drop>(alloc: Global, list: &mut Vec<T>) -> Result<Vec<T>, Memory>
    ensures taken { IfOk result (λ all. all.items ≡ list.old.items) }
    ensures left { OnOk result (list.new.items ≡ []) }
{
    let mut all = with_room(alloc, list.len())?;
    match all.append(list) {
        Ok(()) => Ok(all),
        Err(_) => Err(Memory),
    }
}

/// The list, with no room to spare.
pub fn shrunk<T>(list: Vec<T>) -> Vec<T>
    ensures { result.items ≡ list.items }
{
    let mut list = list;
    list.shrink_to_fit();
    list
}
