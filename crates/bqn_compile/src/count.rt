ghost use Rattle.std.specs.Prelude.{◌≡◌, ◌+◌, IfOk};
ghost use Rattle.bqn_compile.specs.Counting.{past as past_in, nothing as nothing_in, one_use as one_use_in, one_pattern as one_pattern_in, one_block as one_block_in};

use bqn_base::Memory;

/// How many of what a code numbers in text order a part of a program has: names that refer to
/// variables, blocks and their bodies, and patterns.
#[derive(Clone, Copy, Debug, PartialEq, Eq)]
pub struct Count {
    pub uses: u32,
    pub blocks: u32,
    pub bodies: u32,
    pub patterns: u32,
}

pub fn nothing() -> Count
    ensures { result ≡ nothing_in }
{
    Count {
        uses: 0,
        blocks: 0,
        bodies: 0,
        patterns: 0,
    }
}

pub fn one_use() -> Count
    ensures { result ≡ one_use_in }
{
    Count {
        uses: 1,
        ..nothing()
    }
}

pub fn one_pattern() -> Count
    ensures { result ≡ one_pattern_in }
{
    Count {
        patterns: 1,
        ..nothing()
    }
}

/// A block with so many bodies.
pub fn one_block(bodies: u32) -> Count
    ensures { result ≡ one_block_in bodies }
{
    Count {
        blocks: 1,
        bodies,
        ..nothing()
    }
}

fn sum(w: u32, x: u32) -> Result<u32, Memory>
    ensures { IfOk result (λ n. n ≡ w + x) }
{
    match w.checked_add(x) {
        Some(n) => Ok(n),
        None => Err(Memory),
    }
}

/// Both together.
pub fn past(c: Count, d: Count) -> Result<Count, Memory>
    ensures { IfOk result (λ r. r ≡ past_in c d) }
{
    Ok(Count {
        uses: sum(c.uses, d.uses)?,
        blocks: sum(c.blocks, d.blocks)?,
        bodies: sum(c.bodies, d.bodies)?,
        patterns: sum(c.patterns, d.patterns)?,
    })
}
