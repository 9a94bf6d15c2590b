//! Whether many exports differ: only those whose names have one mark are compared.

ghost use Rattle.std.specs.Prelude.{◌≡◌, ◌≤◌, ◌<◌, ◌+◌, drop, length, slice_get};
ghost use Rattle.bqn_code.specs.Conditions.{are_distinct as distinct};
ghost use Rattle.bqn_verify.specs.Marks.{Nexts, is_again, mark_from, mark_in};

use crate::exports::is_same_name;
use bqn_base::Name;

/// The mark of a spelling.
fn mark_of(name: &[char]) -> usize
    ensures mark { result ≡ mark_from 0 name.now }
    ensures within { result < 32768 }
{
    let mut mark: u32 = 0;
    for c in name {
        mark = (mark * 33 + u32::from(*c)) % 32768;
    }
    mark as usize
}

/// The mark of the name with this number.
fn mark_at(names: &[Name], name: u32) -> usize
    ensures mark { result ≡ mark_in (slice_get names.now name) }
    ensures within { result < 32768 }
{
    match names.get(name as usize) {
        None => 0,
        Some(name) => mark_of(name.chars()),
    }
}

/// An export behind this one, such that none between has the spelling of the name.
fn following(names: &[Name], exports: &[(u32, u16)], next: &[u16], name: u32, at: usize) -> usize
    requires nexts { Nexts names.now exports.now next.now }
    requires within { at < length exports.now }
    requires room { length exports.now ≤ length next.now }
    ensures behind { at < result }
    ensures same { is_again names.now name (drop result exports.now) ≡ is_again names.now name (drop (at + 1) exports.now) }
{
    let (other, _) = exports[at];
    let further = usize::from(next[at]);
    if further <= at || mark_at(names, name) != mark_at(names, other) {
        return at + 1;
    }
    further
}

/// Whether the name has the spelling of one of the exports from this one on.
fn is_again_from(
    names: &[Name],
    exports: &[(u32, u16)],
    next: &[u16],
    name: u32,
    from: usize,
) -> bool
    requires nexts { Nexts names.now exports.now next.now }
    requires room { length exports.now ≤ length next.now }
    ensures { result ≡ is_again names.now name (drop from exports.now) }
{
    let mut at = from;
    while at < exports.len() {
        let (other, _) = exports[at];
        if is_same_name(names, name, other) {
            return true;
        }
        at = following(names, exports, next, name, at);
    }
    false
}

/// Whether the names of the exports differ in their spellings, where there are not too many for the
/// tables.
pub fn are_many_distinct(names: &[Name], exports: &[(u32, u16)]) -> bool
    requires few { length exports.now ≤ 65535 }
    ensures { result ≡ distinct names.now exports.now }
{
    // for each mark the first export that has it, and for each export the next with its mark
    let mut heads: [u16; 32768] = [65535; 32768];
    let mut next: [u16; 65535] = [0; 65535];
    let mut from = exports.len();
    while from > 0 {
        let (name, _) = exports[from - 1];
        let mark = mark_at(names, name);
        let head = heads[mark];
        if is_again_from(names, exports, &next, name, usize::from(head)) {
            return false;
        }
        next[from - 1] = head;
        heads[mark] = (from - 1) as u16;
        from -= 1;
    }
    true
}
