//! The exports of a body.

ghost use Rattle.std.specs.Prelude.{◌≡◌, nat_lt, slice_get, ◌&&◌};
ghost use Rattle.std.specs.List.{list_all, list_any};
ghost use Rattle.bqn_code.specs.Conditions.{are_distinct as distinct, has_name};
ghost use Rattle.bqn_code.specs.Numbering.{same_name};
ghost use Rattle.bqn_code.specs.Plain.{code_of};
ghost use Rattle.bqn_verify.specs.Judged.{exports_are_judged as judged};

use crate::marks::are_many_distinct;
use bqn_base::Name;
use bqn_code::{Body, Code};

/// Whether these are the numbers of names with one spelling.
pub fn is_same_name(names: &[Name], a: u32, b: u32) -> bool
    ensures { result ≡ same_name (slice_get names.now a) (slice_get names.now b) }
{
    let Some(a) = names.get(a as usize) else {
        return false;
    };
    let Some(b) = names.get(b as usize) else {
        return false;
    };
    a.chars() == b.chars()
}

fn is_among(names: &[Name], name: u32, exports: &[(u32, u16)]) -> bool
    ensures { result ≡ list_any (λ other. same_name (slice_get names.now name) (slice_get names.now other.0)) exports.now }
{
    exports
        .iter()
        .any(|other| is_same_name(names, name, other.0))
}

/// Whether the names of the exports differ in their spellings, each compared with each.
#[tactic(auto, using(crate::proofs::Exported::distinct_laws))]
fn are_few_distinct(names: &[Name], exports: &[(u32, u16)]) -> bool
    ensures { result ≡ distinct names.now exports.now }
{
    for i in 0..exports.len() {
        let (name, _) = exports[i];
        if is_among(names, name, exports.split_at(i + 1).1) {
            return false;
        }
    }
    true
}

/// Whether the names of the exports differ in their spellings.
fn are_distinct(names: &[Name], exports: &[(u32, u16)]) -> bool
    ensures { result ≡ distinct names.now exports.now }
{
    if exports.len() > 64 && exports.len() <= 65535 {
        are_many_distinct(names, exports)
    } else {
        are_few_distinct(names, exports)
    }
}

fn are_there(code: &Code, slots: u16, exports: &[(u32, u16)]) -> bool
    ensures { result ≡ list_all (λ e. has_name (code_of code.now) e.0 && nat_lt e.1 slots) exports.now }
{
    let names = code.names.list().len();
    exports
        .iter()
        .all(|e| (e.0 as usize) < names && e.1 < slots)
}

/// Whether the exports of a body have their names and slots, and differ in their spellings.
pub fn exports_are_judged(code: &Code, body: &Body) -> bool
    ensures { result ≡ judged (code_of code.now) body.now }
{
    let exports = body.exports.list();
    are_there(code, body.slots, exports) && are_distinct(code.names.list(), exports)
}
