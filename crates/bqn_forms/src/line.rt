//! The line that `•Show` writes for a number.

ghost use Rattle.std.specs.Prelude.{◌≡◌, IfOk, encode_utf8_all};
ghost use Rattle.bqn_base.specs.Printed.{line, number_text};

use bqn_base::Memory;
use itoa::Buffer;
use std::alloc::{AllocError, Global};

/// The decimal digits of a number and a newline, a macron first where it is negative.
pub(crate) fn number_line(alloc: Global, x: i64) -> Result<Vec<u8>, Memory>
    ensures { IfOk result (λ bytes. bytes.items ≡ encode_utf8_all (line (number_text x))) }
{
    written(alloc, x).map_err(|_| Memory)
}

// The allocator is asked once, for the whole line.
#[tactic(auto, using(crate::proofs::NumberLine::line_laws))]
fn written(alloc: Global, x: i64) -> Result<Vec<u8>, AllocError>
    ensures { IfOk result (λ bytes. bytes.items ≡ encode_utf8_all (line (number_text x))) }
{
    let mut buffer = Buffer::new();
    let digits = buffer.format(x.unsigned_abs()).as_bytes();
    let sign = if x < 0 { "¯" } else { "" };
    let mut bytes = Vec::with_capacity(alloc, sign.len() + digits.len() + 1)?;
    bytes.extend_from_slice(sign.as_bytes())?;
    bytes.extend_from_slice(digits)?;
    bytes.extend_from_slice(b"\n")?;
    Ok(bytes)
}

#[cfg(test)]
mod tests {
    use super::number_line;
    use std::test::Fail;

    #[test]
    fn lines_of_numbers(rt: HostRuntime) -> Result<(), Fail> {
        for (x, line) in [
            (0, "0\n"),
            (-5, "¯5\n"),
            (i64::MAX, "9223372036854775807\n"),
            (i64::MIN, "¯9223372036854775808\n"),
        ] {
            let bytes = number_line(rt.alloc(), x)?;
            assert_eq!(rt; bytes.as_slice(), line.as_bytes(), "at {x}");
        }
        Ok(())
    }
}
