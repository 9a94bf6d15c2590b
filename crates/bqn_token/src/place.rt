ghost use Rattle.std.specs.Prelude.{◌≡◌, ◌+◌, ◌<◌, ◌^◌, length};
ghost use Rattle.bqn_syntax.specs.text.Tokens.{behind, past};

use bqn_base::Place;

/// The place of the first character of a text.
pub(crate) const FIRST: Place = Place { line: 1, column: 1 };

/// The place behind a character at this place.
#[inline(always)]
pub(crate) fn place_past(c: char, place: Place) -> Place
    requires line { place.line + 1 < 2 ^ 32 }
    requires column { place.column + 1 < 2 ^ 32 }
    ensures { result ≡ past c place }
{
    if c == '\n' {
        Place {
            line: place.line + 1,
            column: 1,
        }
    } else {
        Place {
            line: place.line,
            column: place.column + 1,
        }
    }
}

/// The place behind a piece that starts at this place.
pub(crate) fn place_behind(piece: &[char], mut place: Place) -> Place
    requires line { place.line + length piece.now < 2 ^ 32 }
    requires column { place.column + length piece.now < 2 ^ 32 }
    ensures { result ≡ behind piece.now place }
{
    'piece: for c in piece {
        place = place_past(*c, place);
    }
    place
}
