ghost use Rattle.std.specs.Prelude.{◌≡◌, ◌<◌, ◌≤◌, IfOk, length, get_or, pos, true};
ghost use Rattle.bqn_rows.specs.Limits.{proper};
ghost use Rattle.bqn_rows.specs.Plain.{Number};
ghost use Rattle.bqn_rows.specs.Laws.{IsFill};
ghost use Rattle.bqn_value.specs.Meaning.{plain, plains, plain_fill, array, bulk, array_bulk, LoadOf, LoadOfParts};

use bqn_base::{Fault, Memory};
use std::marker::Model;
use std::rc::Rc;

/// Why a value is not made.
#[derive(Clone, Copy, Debug, PartialEq, Eq)]
pub enum ValueError {
    TooLarge,
    TooDeep,
    Memory,
}

/// What a derived function was made by.
#[derive(Clone, Copy, Debug, PartialEq, Eq)]
pub enum Maker {
    One(u8),
    Two(u8),
    Atop,
    Fork,
}

/// A modifier: given, or made by a block in an environment.
#[derive(Clone, Copy, Debug, PartialEq, Eq)]
pub enum Modifier {
    Given(u8),
    Block { block: u32, env: u32 },
}

/// How much a value weighs, and how high it stands.
#[derive(Clone, Copy, Debug, PartialEq, Eq)]
pub struct Load {
    pub weight: u32,
    pub height: u8,
}

/// Why a call that makes a value answers none.
#[derive(Debug, Drop)]
pub enum RunError {
    Fault(Fault),
    Memory,
}

#[cycle(value)]
#[derive(Drop)]
pub enum Value {
    Number(i64),
    Char(char),
    Array(Arr),
    Fun(Fun),
    Mod1(Modifier),
    Mod2(Modifier),
    Space(u32),
}

#[cycle(value)]
#[derive(Drop)]
pub enum Fun {
    Given(u8),
    Derived { maker: Maker, parts: Parts },
    Block { block: u32, env: u32, parts: Parts },
}

/// What an array holds, and what it weighs.
#[cycle(value)]
#[derive(Drop)]
pub struct Held {
    pub shape: Vec<u32>,
    pub elements: Vec<Value>,
    pub fill: Option<Value>,
    pub load: Load,
}

/// An array, shared.
#[cycle(value)]
#[derive(Drop)]
pub struct Arr {
    pub(crate) held: Rc<Held>,
}

/// The operands or parts of a function, shared; where there are none, they take no memory.
#[cycle(value)]
#[derive(Drop)]
pub struct Parts {
    pub(crate) held: Option<Rc<HeldParts>>,
}

#[cycle(value)]
#[derive(Drop)]
pub struct HeldParts {
    pub items: Vec<Value>,
    pub load: Load,
}

impl Model for Parts {
    ghost use Rattle.std.specs.Prelude.{List};
    ghost use Rattle.std.specs.Coded.{coded_list};
    ghost use Rattle.bqn_rows.specs.Plain.{Value as V};
    ghost use Rattle.bqn_rows.specs.Stored.{coded_value};

    ghost Value = { List V };

    ghost coded = { coded_list coded_value };

    ghost use Rattle.bqn_value.specs.Meaning.{held_parts, all_bulk};

    ghost view = { λ a. held_parts a.held };

    ghost use Rattle.bqn_value.specs.Meaning.{KeptHeld};

    ghost invariant = { λ a. KeptHeld a.held };

    ghost size = { all_bulk };

    ghost use Rattle.bqn_value.specs.Falls.{parts-fall};

    ghost size_decreases = { λ a h. parts-fall a };
}

impl Model for Arr {
    ghost use Rattle.bqn_value.specs.Seen.{Seen, coded_seen};

    ghost Value = { Seen };

    ghost coded = { coded_seen };

    ghost use Rattle.bqn_value.specs.Meaning.{plains, plain_fill, array_bulk};

    ghost view = { λ a. record { shape = a.held.value.shape.items; elements = plains a.held.value.elements.items; fill = plain_fill a.held.value.fill } };

    ghost use Rattle.bqn_value.specs.Meaning.{Kept};

    ghost invariant = { λ a. Kept (record { shape = a.held.value.shape.items; elements = plains a.held.value.elements.items; fill = plain_fill a.held.value.fill }) a.held.value.load };

    ghost size = { array_bulk };

    ghost use Rattle.bqn_value.specs.Falls.{array-falls};

    ghost size_decreases = { λ a h. array-falls a };
}

impl Arr {
    /// The same array, which shares its elements.
    pub fn share(&self) -> Result<Arr, Memory>
        ensures { IfOk result (λ a. a ≡ self.now) }
    {
        match self.held.clone() {
            Ok(held) => Ok(Arr { held }),
            Err(_) => Err(Memory),
        }
    }

    /// The lengths of the axes.
    pub fn shape(&self) -> &[u32]
        ensures { result.now ≡ self.now.shape }
    {
        self.held.shape.as_slice()
    }

    /// The number of elements.
    pub fn count(&self) -> usize
        ensures counted { result ≡ length self.now.elements }
        ensures whole { proper (array self.now) ≡ true }
    {
        self.held.elements.len()
    }

    /// The elements, in index order.
    pub fn elements(&self) -> &[Value]
        ensures { plains result.now ≡ self.now.elements }
    {
        self.held.elements.as_slice()
    }

    /// The element at a place.
    #[tactic(auto, using(crate::proofs::Build::taking))]
    pub fn element(&self, i: usize) -> &Value
        requires { i < length self.now.elements }
        ensures value { get_or self.now.elements i (Number (pos 0)) ≡ plain result.now }
        ensures whole { proper (plain result.now) ≡ true }
        ensures less { bulk (plain result.now) ≤ array_bulk self.now }
    {
        let all = self.elements();
        let _ = self.count();
        &all[i]
    }

    /// The fill that it carries.
    #[tactic(auto, using(crate::proofs::Fills::carrying))]
    pub fn carried(&self) -> Result<Option<Value>, Memory>
        ensures same { IfOk result (λ f. plain_fill f ≡ self.now.fill) }
        ensures own { IfOk result (λ f. IsFill (plain_fill f)) }
    {
        match copy_fill(&self.held.fill) {
            Ok(f) => Ok(f),
            Err(e) => Err(e),
        }
    }

    /// What it weighs, and how high it stands.
    pub fn load(&self) -> Load
        ensures { LoadOf result (array self.now) }
    {
        self.held.load
    }
}

fn copy_fill(f: &Option<Value>) -> Result<Option<Value>, Memory>
    ensures { IfOk result (λ g. plain_fill g ≡ plain_fill f.now) }
{
    Ok(match f {
        None => None,
        Some(f) => Some(f.copy()?),
    })
}

impl Parts {
    /// The parts, in order.
    pub fn list(&self) -> &[Value]
        ensures { plains result.now ≡ self.now }
    {
        match &self.held {
            None => &[],
            Some(held) => held.items.as_slice(),
        }
    }

    /// What the parts weigh together, and how high the highest stands.
    pub fn load(&self) -> Load
        ensures { LoadOfParts result self.now }
    {
        match &self.held {
            None => Load {
                weight: 0,
                height: 0,
            },
            Some(held) => held.load,
        }
    }
}

impl Value {
    /// An identical value.
    pub fn copy(&self) -> Result<Value, Memory>
        ensures { IfOk result (λ v. v ≡ self.now) }
    {
        Ok(match self {
            Value::Number(n) => Value::Number(*n),
            Value::Char(c) => Value::Char(*c),
            Value::Array(a) => Value::Array(a.share()?),
            Value::Fun(f) => Value::Fun(f.copy()?),
            Value::Mod1(m) => Value::Mod1(*m),
            Value::Mod2(m) => Value::Mod2(*m),
            Value::Space(e) => Value::Space(*e),
        })
    }
}

impl Fun {
    fn copy(&self) -> Result<Fun, Memory>
        ensures { IfOk result (λ f. f ≡ self.now) }
    {
        Ok(match self {
            Fun::Given(c) => Fun::Given(*c),
            Fun::Derived { maker, parts } => Fun::Derived {
                maker: *maker,
                parts: parts.share()?,
            },
            Fun::Block { block, env, parts } => Fun::Block {
                block: *block,
                env: *env,
                parts: parts.share()?,
            },
        })
    }
}

impl Parts {
    /// The same parts, shared.
    pub fn share(&self) -> Result<Parts, Memory>
        ensures { IfOk result (λ a. a ≡ self.now) }
    {
        let Some(held) = &self.held else {
            return Ok(Parts { held: None });
        };
        match held.clone() {
            Ok(held) => Ok(Parts { held: Some(held) }),
            Err(_) => Err(Memory),
        }
    }
}
