//! A list of names without repeats.

ghost use Rattle.std.specs.Prelude.{◌≡◌, ◌≤◌, [], length, nat_eq};
ghost use Rattle.std.specs.List.{IsDistinct};
ghost use Rattle.std.specs.Cmp.Lexicographic.{pointwise};
ghost use Rattle.bqn_scope.specs.Names.{Adds, TakesMemory, place_of};

use crate::spellings::Spellings;
use bqn_base::Name;
use std::alloc::Global;
use std::marker::Model;

/// Why a name is not added: the list is full, or memory runs out.
#[derive(Clone, Copy, Debug, PartialEq, Eq)]
pub enum NamesError {
    Full,
    Memory,
}

/// The most names that a list holds. The last of them has the place 65,534.
const MOST: usize = 65535;

/// A list of at most 65,535 names without repeats, in the order in which they were added.
#[derive(Drop)]
pub struct Names {
    spellings: Spellings,
}

impl Model for Names {
    ghost use Rattle.std.specs.Prelude.{List, ℕ, ◌≤◌, length};
    ghost use Rattle.std.specs.Coded.{coded_list, coded_ℕ};

    ghost Value = { List (List ℕ) };

    ghost coded = { coded_list (coded_list coded_ℕ) };

    ghost view = { λ names. names.spellings };

    ghost invariant = { λ names. length names.spellings ≤ 65535 };
}

impl Names {
    /// No names.
    pub fn new(alloc: Global) -> Names
        ensures { result ≡ [] }
    {
        Names {
            spellings: Spellings::new(alloc),
        }
    }

    /// The names.
    pub fn spellings(&self) -> &Spellings
        ensures { result.now ≡ self.now }
    {
        &self.spellings
    }

    /// The place of a name, if the list holds it.
    pub fn position(&self, name: &Name) -> Option<u16>
        ensures value { result ≡ place_of self.now name.now }
        ensures room { length self.now ≤ 65535 }
        ensures distinct { IsDistinct (pointwise nat_eq) self.now }
    {
        match self.spellings.position(name.chars()) {
            Some(place) => Some(place as u16),
            None => None,
        }
    }

    /// The place of a name, which goes to the end of the list unless the list holds it.
    #[tactic(auto, using(crate::proofs::Spelling::added_laws))]
    pub fn add(&mut self, name: &Name) -> Result<u16, NamesError>
        ensures added { Adds self.old name.now self.new result }
        ensures memory { TakesMemory self.old name.now result }
    {
        if let Some(place) = self.spellings.position(name.chars()) {
            return Ok(place as u16);
        }
        let place = self.spellings.len();
        if place >= MOST {
            return Err(NamesError::Full);
        }
        match self.spellings.push(name.chars()) {
            Ok(()) => Ok(place as u16),
            Err(_) => Err(NamesError::Memory),
        }
    }
}
