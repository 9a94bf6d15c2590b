ghost use Rattle.std.specs.Prelude.{◌≡◌, IfOk, IsTrue};
ghost use Rattle.std.specs.List.{list_all};
ghost use Rattle.bqn_base.specs.Names.{is_name_character};

use std::alloc::{AllocError, AllocFailed, Global};
use std::marker::Model;
use std::rc::RcSlice;

/// Want of memory.
#[derive(Clone, Copy, Debug, PartialEq, Eq)]
pub struct Memory;

impl From<AllocError> for Memory {
    ghost from_gives = { λ _ given. given ≡ record {} };

    fn from(_error: AllocError) -> Memory {
        Memory
    }
}

impl<T: Drop> From<AllocFailed<T>> for Memory {
    ghost from_gives = { λ _ given. given ≡ record {} };

    fn from(_error: AllocFailed<T>) -> Memory {
        Memory
    }
}

/// A list of characters.
#[derive(Debug, Drop)]
pub struct Text {
    chars: RcSlice<char>,
}

impl Model for Text {
    ghost use Rattle.std.specs.Prelude.{List, ℕ};
    ghost use Rattle.std.specs.Coded.{coded_list, coded_ℕ};
    ghost use Rattle.std.specs.Rc.{rc_slice_items};

    ghost Value = { List ℕ };

    ghost coded = { coded_list coded_ℕ };

    ghost view = { λ text. rc_slice_items text.chars };
}

impl Text {
    /// The text of these characters.
    pub fn new(alloc: Global, chars: &[char]) -> Result<Text, Memory>
        ensures { IfOk result (λ text. text ≡ chars.now) }
    {
        match RcSlice::from_slice(alloc, chars) {
            Ok(chars) => Ok(Text { chars }),
            Err(_) => Err(Memory),
        }
    }

    /// The same text, which shares the characters.
    pub fn share(&self) -> Result<Text, Memory>
        ensures { IfOk result (λ text. text ≡ self.now) }
    {
        match self.chars.clone() {
            Ok(chars) => Ok(Text { chars }),
            Err(_) => Err(Memory),
        }
    }

    /// The characters, in order.
    pub fn chars(&self) -> &[char]
        ensures { result.now ≡ self.now }
    {
        self.chars.as_slice()
    }
}

/// The spelling of a name: a list of lower-case letters and digits.
#[derive(Debug, Drop)]
pub struct Name {
    chars: RcSlice<char>,
}

impl Model for Name {
    ghost use Rattle.std.specs.Prelude.{List, ℕ, IsTrue};
    ghost use Rattle.std.specs.Coded.{coded_list, coded_ℕ};
    ghost use Rattle.std.specs.Rc.{rc_slice_items};
    ghost use Rattle.std.specs.List.{list_all};
    ghost use Rattle.bqn_base.specs.Names.{is_name_character};

    ghost Value = { List ℕ };

    ghost coded = { coded_list coded_ℕ };

    ghost view = { λ name. rc_slice_items name.chars };

    ghost invariant = { λ name. IsTrue (list_all is_name_character (rc_slice_items name.chars)) };
}

impl Name {
    /// The name of these characters.
    pub fn new(alloc: Global, chars: &[char]) -> Result<Name, Memory>
        requires { IsTrue (list_all is_name_character chars.now) }
        ensures { IfOk result (λ name. name ≡ chars.now) }
    {
        let Ok(chars) = RcSlice::from_slice(alloc, chars) else {
            return Err(Memory);
        };
        Ok(Name { chars })
    }

    /// The same name, which shares the characters.
    pub fn share(&self) -> Result<Name, Memory>
        ensures { IfOk result (λ name. name ≡ self.now) }
    {
        match self.chars.clone() {
            Ok(chars) => Ok(Name { chars }),
            Err(_) => Err(Memory),
        }
    }

    /// The characters, in order.
    pub fn chars(&self) -> &[char]
        ensures value { result.now ≡ self.now }
        ensures alphabet { IsTrue (list_all is_name_character self.now) }
    {
        self.chars.as_slice()
    }
}
