//! The line that words are answered which are no command.

ghost use Rattle.std.specs.Prelude.{◌≡◌, encode_utf8_all};
ghost use Rattle.bqn_base.specs.Printed.{usage_line as usage_line_of};

const USAGE: &str =
    "Usage: run [--steps N] FILE ARG.. | session [--steps N] | check FILE | build FILE | exec [--steps N] FILE ARG.. | demo N\n";

/// The line for words that are no command.
#[tactic(auto, using(crate::proofs::UsageBytes::usage_laws))]
pub(crate) fn usage_line() -> &'static [u8]
    ensures { result.now ≡ encode_utf8_all usage_line_of }
{
    USAGE.as_bytes()
}
