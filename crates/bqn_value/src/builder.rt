ghost use Rattle.std.specs.Prelude.{◌≡◌, ◌≤◌, ◌+◌, ◌++◌, ◌∷◌, [], IfOk, length, take, drop, replicate, true};
ghost use Rattle.bqn_rows.specs.Plain.{values};
ghost use Rattle.bqn_rows.specs.Limits.{places, proper, all_proper, array as array_of};
ghost use Rattle.bqn_rows.specs.Laws.{IsFill};
ghost use Rattle.bqn_value.specs.Meaning.{plain, plains, plain_fill, Gives};

use crate::value::{Arr, RunError, Value, ValueError};
use bqn_base::{Fault, Memory};
use std::alloc::Global;
use std::marker::Model;

/// The elements of an array that is being made; contracts see them as a list of proper values.
#[derive(Drop)]
pub struct Builder {
    alloc: Global,
    items: Vec<Value>,
}

impl Model for Builder {
    ghost use Rattle.std.specs.Prelude.{◌≡◌, List, true};
    ghost use Rattle.std.specs.Coded.{coded_list};
    ghost use Rattle.bqn_rows.specs.Plain.{Value as V, values};
    ghost use Rattle.bqn_rows.specs.Limits.{all_proper};
    ghost use Rattle.bqn_rows.specs.Stored.{coded_value};
    ghost use Rattle.bqn_value.specs.Meaning.{plains};

    ghost Value = { List V };

    ghost coded = { coded_list coded_value };

    ghost view = { λ b. plains b.items.items };

    ghost invariant = { λ b. all_proper (values (plains b.items.items)) ≡ true };
}

impl Builder {
    /// No elements yet, and room for as many as this.
    pub fn new(alloc: Global, room: usize) -> Result<Builder, Memory>
        ensures { IfOk result (λ b. b ≡ []) }
    {
        match Vec::with_capacity(alloc, room) {
            Ok(items) => Ok(Builder { alloc, items }),
            Err(_) => Err(Memory),
        }
    }

    /// One more element.
    #[tactic(auto, using(crate::proofs::Build::building))]
    pub fn push(&mut self, v: Value) -> Result<(), Memory>
        requires { proper (plain v) ≡ true }
        ensures { IfOk result (λ _. self.new ≡ self.old ++ plain v ∷ []) }
    {
        match self.items.push(v) {
            Ok(()) => Ok(()),
            Err(_) => Err(Memory),
        }
    }

    /// All of these.
    fn extend(&mut self, part: &[Value]) -> Result<(), Memory>
        requires { all_proper (values (plains part.now)) ≡ true }
        ensures { IfOk result (λ _. self.new ≡ self.old ++ plains part.now) }
    {
        for v in part {
            self.push(v.copy()?)?;
        }
        Ok(())
    }

    /// Elements of an array that stand one after another.
    #[tactic(auto, using(crate::proofs::Build::running))]
    pub fn run(&mut self, from: &Arr, start: usize, many: usize) -> Result<(), Memory>
        requires { start + many ≤ length from.now.elements }
        ensures { IfOk result (λ _. self.new ≡ self.old ++ take many (drop start from.now.elements)) }
    {
        let _count = from.count();
        let all = from.elements();
        self.extend(all.split_at(start).1.split_at(many).0)
    }

    /// The same element so many times.
    pub fn fill(&mut self, v: &Value, many: usize) -> Result<(), Memory>
        requires { proper (plain v.now) ≡ true }
        ensures { IfOk result (λ _. self.new ≡ self.old ++ replicate many (plain v.now)) }
    {
        for i in 0..many {
            self.push(v.copy()?)?;
        }
        Ok(())
    }

    /// The array of this shape and these elements; it carries the fill where it is empty.
    pub fn finish(self, shape: &[u32], fill: Option<Value>) -> Result<Value, RunError>
        requires counted { places shape.now ≡ length self }
        requires fill { IsFill (plain_fill fill) }
        ensures { Gives result (array_of shape.now (values self) (plain_fill fill)) }
    {
        let Builder { alloc, items } = self;
        match Arr::new(alloc, shape, items, fill) {
            Ok(a) => {
                let _ = a.count();
                Ok(Value::Array(a))
            }
            Err(ValueError::TooLarge) => Err(RunError::Fault(Fault::TooLarge)),
            Err(ValueError::TooDeep) => Err(RunError::Fault(Fault::TooDeep)),
            Err(ValueError::Memory) => Err(RunError::Memory),
        }
    }
}
