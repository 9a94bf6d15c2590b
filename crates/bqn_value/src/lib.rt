//! Values: how they are held, made, shared and compared.
#![tactic(auto)]

mod builder;
mod making;
mod matching;
mod measures;
mod prototypes;
mod value;

pub use builder::Builder;
pub use making::{block_function, derived, is_within};
pub use matching::{matches, type_number};
pub use measures::{depth, weight};
pub use prototypes::prototype;
pub use value::{Arr, Fun, Load, Maker, Modifier, Parts, RunError, Value, ValueError};
