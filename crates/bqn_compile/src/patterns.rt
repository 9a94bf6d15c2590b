//! The patterns of a code.

ghost use Rattle.std.specs.Prelude.{◌≡◌, ◌+◌, IfOk, OnOk, map};
ghost use Rattle.bqn_syntax.specs.scope.Order.{by_arrow};
ghost use Rattle.bqn_syntax.specs.grammar.Trees.{pattern_of as tree_of, patterns as plain_patterns};
ghost use Rattle.bqn_syntax.specs.scope.Scope.{name_of};
ghost use Rattle.bqn_code.specs.Plain.{ListPattern, pattern_of, patterns};
ghost use Rattle.bqn_compile.specs.Pools.{constant_of, name_number, seen_at};
ghost use Rattle.bqn_scope.specs.Scopes.{use_shown};
ghost use Rattle.bqn_compile.specs.Counting.{in_all_leaves, in_kind, in_leaves};
ghost use Rattle.bqn_compile.specs.Patterns.{pattern_code as code_in, patterns_code as all_code_in, stored_leaf as leaf_code, literal_leaf as literal_code};
ghost use Rattle.bqn_compile.specs.Shown.{constants_shown};

use crate::key::Key;
use crate::leaf::seen;
use crate::pooling::spelling;
use crate::pools::{Pools, constant_at, name_at};
use bqn_base::{Memory, Row};
use bqn_code::PatternCode;
use bqn_scope::Use;
use bqn_syntax::{Arrow, Kind, Pattern, Token};

/// A leaf that is stored into, whose use has this number.
#[tactic(auto, using(bqn_code::specs::PatternEquations::pattern_equations))]
fn stored_leaf(
    pools: &Pools,
    uses: &[Use],
    arrow: Arrow,
    number: u32,
    t: &Token,
) -> Result<PatternCode, Memory>
    ensures { IfOk result (λ p. pattern_of p ≡
        leaf_code (by_arrow arrow) (seen_at (map use_shown uses.now) number) (name_number (pools.now.names) (name_of t.now))) }
{
    let Ok(at) = seen(uses, number) else {
        return Err(Memory);
    };
    let Ok(name) = u32::try_from(name_at(&pools.names, spelling(t))) else {
        return Err(Memory);
    };
    match arrow {
        Arrow::Change => Ok(PatternCode::Change {
            up: at.up,
            slot: at.slot,
            name,
        }),
        Arrow::Define | Arrow::Export => Ok(PatternCode::Define {
            slot: at.slot,
            name,
        }),
    }
}

#[tactic(auto, using(bqn_code::specs::PatternEquations::pattern_equations))]
fn literal_leaf(pools: &Pools, kind: &Kind) -> Result<PatternCode, Memory>
    ensures { IfOk result (λ p. pattern_of p ≡ literal_code (constants_shown pools.now.constants.keys) (constant_of kind.now)) }
{
    let Ok(found) = Key::of(pools.alloc, kind) else {
        return Err(Memory);
    };
    let Some(key) = found else {
        return Ok(PatternCode::Skip);
    };
    match u16::try_from(constant_at(&pools.constants, &key)) {
        Ok(number) => Ok(PatternCode::Literal(number)),
        Err(_) => Err(Memory),
    }
}

/// Goes past a use, where the token is one.
fn pass(number: &mut u32, kind: &Kind) -> Result<(), Memory>
    ensures { OnOk result (number.new ≡ number.old + (in_kind kind.now).uses) }
{
    if let Kind::Word(_, _) = kind {
        let Some(next) = number.checked_add(1) else {
            return Err(Memory);
        };
        *number = next;
    }
    Ok(())
}

/// A pattern whose first use has this number, once its leaves are pooled. The number goes past its
/// uses.
#[cycle(pattern_code)]
#[tactic(auto, using(bqn_syntax::specs::grammar::TreeEquations::tree_equations, bqn_code::specs::PatternEquations::pattern_equations))]
pub fn pattern_code(
    pools: &Pools,
    uses: &[Use],
    arrow: Arrow,
    number: &mut u32,
    q: &Pattern,
) -> Result<PatternCode, Memory>
    ensures code { IfOk result (λ p. pattern_of p ≡
        code_in (map use_shown uses.now) (constants_shown pools.now.constants.keys) pools.now.names (by_arrow arrow) number.old (tree_of q.now)) }
    ensures past { OnOk result (number.new ≡ number.old + (in_leaves (tree_of q.now)).uses) }
{
    match q {
        Pattern::Name(t) => {
            let code = stored_leaf(pools, uses, arrow, *number, t)?;
            pass(number, &t.kind)?;
            Ok(code)
        }
        Pattern::Skip(_) => Ok(PatternCode::Skip),
        Pattern::Literal(t) => literal_leaf(pools, &t.kind),
        Pattern::List(all) => list_code(pools, uses, arrow, number, all.list()),
        Pattern::Strand(all) => list_code(pools, uses, arrow, number, all.list()),
    }
}

#[cycle(pattern_code)]
#[tactic(auto, using(bqn_syntax::specs::grammar::TreeEquations::tree_equations, bqn_code::specs::PatternEquations::pattern_equations))]
fn list_code(
    pools: &Pools,
    uses: &[Use],
    arrow: Arrow,
    number: &mut u32,
    all: &[Pattern],
) -> Result<PatternCode, Memory>
    ensures code { IfOk result (λ p. pattern_of p ≡
        ListPattern (patterns (all_code_in (map use_shown uses.now) (constants_shown pools.now.constants.keys) pools.now.names (by_arrow arrow) number.old
        (plain_patterns (map tree_of all.now))))) }
    ensures past { OnOk result (number.new ≡ number.old + (in_all_leaves (plain_patterns (map tree_of all.now))).uses) }
{
    let mut codes = Vec::new(pools.alloc);
    for q in all {
        let code = pattern_code(pools, uses, arrow, number, q)?;
        let Ok(()) = codes.push(code) else {
            return Err(Memory);
        };
    }
    Ok(PatternCode::List(Row::new(codes)))
}
