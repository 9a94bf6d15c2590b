ghost use Rattle.std.specs.Prelude.{◌≡◌};
ghost use Rattle.bqn_compile.specs.Pools.{name_number, constant_number, place_among};
ghost use Rattle.bqn_compile.specs.Gathering.{at_start};
ghost use Rattle.bqn_compile.specs.Shown.{constants_shown, gathered_shown, key_shown};

use crate::key::Key;
use bqn_code::PatternCode;
use bqn_scope::Spellings;
use indexmap::IndexSet;
use std::alloc::Global;

/// What a code pools, and how many uses and blocks come before what is read next.
#[derive(Drop)]
pub struct Pools {
    pub alloc: Global,
    pub constants: IndexSet<Key>,
    pub names: Spellings,
    pub patterns: Vec<PatternCode>,
    pub uses: u32,
    pub blocks: u32,
}

impl Pools {
    /// Nothing yet; the program itself is a block.
    pub fn new(alloc: Global) -> Pools
        ensures { gathered_shown result ≡ at_start }
    {
        Pools {
            alloc,
            constants: IndexSet::new(alloc),
            names: Spellings::new(alloc),
            patterns: Vec::new(alloc),
            uses: 0,
            blocks: 1,
        }
    }
}

/// The number of a name in the pool; what is pooled has one.
pub fn name_at(names: &Spellings, name: &[char]) -> usize
    ensures { result ≡ name_number names.now name.now }
{
    match names.position(name) {
        Some(place) => place,
        None => 0,
    }
}

/// The place of a constant in the pool.
pub fn place_of_constant(constants: &IndexSet<Key>, key: &Key) -> Option<usize>
    ensures { result ≡ place_among (constants_shown constants.now.keys) (key_shown key.now) }
{
    constants.get_index_of(key)
}

/// The number of a constant in the pool; what is pooled has one.
pub fn constant_at(constants: &IndexSet<Key>, key: &Key) -> usize
    ensures { result ≡ constant_number (constants_shown constants.now.keys) (key_shown key.now) }
{
    match place_of_constant(constants, key) {
        Some(place) => place,
        None => 0,
    }
}
