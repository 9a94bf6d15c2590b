ghost use Rattle.std.specs.Prelude.{IsTrue};
ghost use Rattle.bqn_code.specs.Places.{have_places};

use crate::constant::Const;
use crate::instr::Instr;
use crate::pattern::PatternCode;
use bqn_base::{Name, Place, Row};
use bqn_syntax::Class;

/// A body of a block.
#[derive(Drop)]
pub struct Body {
    /// The calls for which it is meant: 0 for all, 1 for those without a left argument, 2 for
    /// those with one.
    pub kind: u8,
    /// How many variables it has.
    pub slots: u16,
    /// The numbers of the names that it exports, each with the slot of its variable.
    pub exports: Row<(u32, u16)>,
    /// What it does.
    pub code: Row<Instr>,
    /// The place of each instruction, where the code has places, and else none.
    pub places: Row<Place>,
}

/// A block: its bodies are tried in order.
#[derive(Drop)]
pub struct Block {
    pub class: Class,
    /// The number of the body in which the block stands, where bodies are numbered through all
    /// blocks in order. The program's block has 0.
    pub parent: u32,
    pub bodies: Row<Body>,
}

/// A whole program. Block 0 is what is run.
#[derive(Drop)]
pub struct Code {
    /// Whether its instructions have places.
    pub placed: bool,
    /// The names of fields.
    pub names: Row<Name>,
    pub constants: Row<Const>,
    pub patterns: Row<PatternCode>,
    pub blocks: Row<Block>,
    ghost places_fit: { IsTrue (have_places placed blocks) },
}
