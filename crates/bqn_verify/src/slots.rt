//! Which variables are there.

ghost use Rattle.std.specs.Prelude.{◌≡◌, ◌≤◌, drop, length, slice_get};
ghost use Rattle.std.specs.List.{All};
ghost use Rattle.bqn_code.specs.Plain.{code_of};
ghost use Rattle.bqn_code.specs.Conditions.{is_below as below};
ghost use Rattle.bqn_verify.specs.Judged.{has_slot_up};
ghost use Rattle.bqn_verify.specs.Rows.{IsStart, parent_if as parent_unless, rows_of, up_in};

use bqn_code::{Block, Code};

/// What is asked of a body: how many variables it has, and the body around it, or none for the
/// program's.
#[derive(Clone, Copy)]
pub struct Row {
    pub slots: u16,
    pub around: Option<u32>,
}

/// The body around those of a block.
fn parent_if(block_number: usize, parent: u32) -> Option<u32>
    ensures { result ≡ parent_unless block_number parent }
{
    if block_number == 0 {
        None
    } else {
        Some(parent)
    }
}

fn is_below(slot: u16, slots: Option<u16>) -> bool
    ensures { result ≡ below slot slots }
{
    match slots {
        None => false,
        Some(slots) => slot < slots,
    }
}

/// A block, and the number of its first body.
#[derive(Clone, Copy)]
pub struct Start {
    pub block: usize,
    pub first: u64,
}

/// The row of the body so many behind the first of this block.
#[tactic(auto, using(crate::proofs::Finding::finds))]
fn row_from(blocks: &[Block], from: usize, behind: u64) -> Option<Row>
    ensures { result ≡ slice_get (rows_of from (drop from blocks.now)) behind }
{
    let mut left = behind;
    for n in from..blocks.len() {
        let block = &blocks[n];
        let bodies = block.bodies.list();
        let many = bodies.len() as u64;
        if left < many {
            let body = &bodies[left as usize];
            return Some(Row {
                slots: body.slots,
                around: parent_if(n, block.parent),
            });
        }
        left -= many;
    }
    None
}

/// How many of the first so many starts are left without the last ones, which stand behind the body
/// with this number.
pub fn starts_before(starts: &[Start], many: usize, number: u64) -> usize
    requires { many ≤ length starts.now }
    ensures { result ≤ many }
{
    let mut left = many;
    while left > 0 && starts[left - 1].first > number {
        left -= 1;
    }
    left
}

/// The row of the body with this number. Blocks before the start are passed over, where the body is
/// not in them.
fn row_behind(blocks: &[Block], start: Start, number: u64) -> Option<Row>
    requires { IsStart blocks.now start }
    ensures { result ≡ slice_get (rows_of 0 blocks.now) number }
{
    if start.first > number {
        return row_from(blocks, 0, number);
    }
    row_from(blocks, start.block, number - start.first)
}

/// The row of the body with this number, looked for from the last of the first so many starts on.
fn row_at(blocks: &[Block], starts: &[Start], many: usize, number: u64) -> Option<Row>
    requires starts { All (IsStart blocks.now) starts.now }
    requires within { many ≤ length starts.now }
    ensures { result ≡ slice_get (rows_of 0 blocks.now) number }
{
    if many == 0 {
        return row_from(blocks, 0, number);
    }
    row_behind(blocks, starts[many - 1], number)
}

/// How many variables the body so many bodies up has.
#[tactic(auto, using(crate::proofs::Finding::ways_up))]
fn slots_up(blocks: &[Block], starts: &[Start], up: u16, number: u64) -> Option<u16>
    requires starts { All (IsStart blocks.now) starts.now }
    ensures { result ≡ up_in (rows_of 0 blocks.now) up number }
{
    let mut up = up;
    let mut number = number;
    let mut many = starts_before(starts, starts.len(), number);
    while up > 0 {
        let Some(row) = row_at(blocks, starts, many, number) else {
            return None;
        };
        let Some(parent) = row.around else {
            return None;
        };
        number = u64::from(parent);
        many = starts_before(starts, many, number);
        up -= 1;
    }
    match row_at(blocks, starts, many, number) {
        None => None,
        Some(row) => Some(row.slots),
    }
}

/// Whether the body so many bodies up from the one with this number has this slot. The blocks
/// around are found fast where the starts hold them.
pub fn has_slot(code: &Code, starts: &[Start], number: u64, up: u16, slot: u16) -> bool
    requires starts { All (IsStart (code_of code.now).blocks) starts.now }
    ensures { result ≡ has_slot_up (code_of code.now) number up slot }
{
    is_below(slot, slots_up(code.blocks.list(), starts, up, number))
}
