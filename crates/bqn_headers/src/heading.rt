ghost use Rattle.std.specs.Prelude.{◌≤◌, ◌^◌, length};
ghost use Rattle.bqn_syntax.specs.grammar.Headers.{header_in};
ghost use Rattle.bqn_headers.specs.Heading.{Gives};

use crate::error::HeadError;
use crate::form::header_form;
use crate::groups::grouped;
use crate::lists::Lists;
use bqn_syntax::{Header, Token};
use std::alloc::Global;

/// The header that the tokens of a piece are. `Bad` comes exactly where they are none.
#[tactic(auto, using(crate::proofs::Walking::walk_laws))]
pub fn header(alloc: Global, piece: &[Token]) -> Result<Header, HeadError>
    requires { length piece.now ≤ 2 ^ 28 }
    ensures { Gives (header_in piece.now) result }
{
    let mut lists = Lists::new(alloc);
    'tokens: for token in piece {
        lists.take(alloc, token)?;
    }
    let Some(items) = lists.into_items() else {
        return Err(HeadError::Bad);
    };
    let groups = grouped(alloc, items)?;
    header_form(alloc, groups)
}
