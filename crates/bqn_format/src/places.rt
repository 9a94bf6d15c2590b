//! Printed places.

ghost use Rattle.std.specs.Prelude.{◌≡◌, ◌<◌, ◌++◌, OnOk, decimal, encode_utf8_all};
ghost use Rattle.std.specs.String.{string_bytes};
ghost use Rattle.bqn_base.specs.Printed.{counted_lines, far_place_text, line_and_column, place_text};

use bqn_base::Place;
use itoa::Buffer;
use std::alloc::AllocError;

/// The most lines that a printed place counts on.
const COUNTED_LINES: u32 = 1 << 25;

#[tactic(auto, using(crate::proofs::LineBytes::number_laws))]
pub(crate) fn push_number(text: &mut String, number: u32) -> Result<(), AllocError>
    ensures { OnOk result (string_bytes text.new ≡ string_bytes text.old ++ encode_utf8_all (decimal number)) }
{
    text.push_str(Buffer::new().format(number))
}

#[tactic(auto, using(crate::proofs::LineBytes::place_laws))]
fn push_line_and_column(text: &mut String, line: u32, column: u32) -> Result<(), AllocError>
    ensures { OnOk result (string_bytes text.new ≡ string_bytes text.old ++ encode_utf8_all (line_and_column line column)) }
{
    push_number(text, line)?;
    text.push(':')?;
    push_number(text, column)
}

/// A place past the counted lines: how many times they have passed, and the place counted on from there.
#[tactic(auto, using(crate::proofs::LineBytes::place_laws))]
fn push_far_place(text: &mut String, line: u32, column: u32) -> Result<(), AllocError>
    requires { counted_lines < line }
    ensures { OnOk result (string_bytes text.new ≡ string_bytes text.old ++ encode_utf8_all (far_place_text line column)) }
{
    let before = line - 1;
    text.push('#')?;
    push_number(text, before / COUNTED_LINES)?;
    text.push(' ')?;
    push_line_and_column(text, before % COUNTED_LINES + 1, column)
}

/// A line and a column.
#[tactic(auto, using(crate::proofs::LineBytes::place_laws))]
pub(crate) fn push_place(text: &mut String, place: Place) -> Result<(), AllocError>
    ensures { OnOk result (string_bytes text.new ≡ string_bytes text.old ++ encode_utf8_all (place_text place)) }
{
    if place.line <= COUNTED_LINES {
        push_line_and_column(text, place.line, place.column)
    } else {
        push_far_place(text, place.line, place.column)
    }
}

#[cfg(test)]
mod tests {
    use super::push_place;
    use bqn_base::Place;
    use std::test::Fail;

    #[test]
    fn printed_places(rt: HostRuntime) -> Result<(), Fail> {
        for (line, column, printed) in [
            (1, 26, "1:26"),
            (33_554_432, 9, "33554432:9"),
            (33_554_433, 9, "#1 1:9"),
            (67_108_864, 1, "#1 33554432:1"),
            (100_663_303, 12, "#3 7:12"),
        ] {
            let mut text = String::new(rt.alloc());
            push_place(&mut text, Place { line, column })?;
            assert_eq!(rt; text.as_str(), printed);
        }
        Ok(())
    }
}
