ghost use Rattle.std.specs.Prelude.{◌≡◌};
ghost use Rattle.bqn_code.specs.Plain.{code_of};
ghost use Rattle.bqn_code.specs.Verified as code_is;

use bqn_code::Code;

/// Code that is verified: a machine that runs it always finds the operands of an instruction and
/// what it names.
#[derive(Drop)]
pub struct Verified {
    code: Code,
    ghost verified: { code_is.Verified (code_of code) },
}

impl Verified {
    pub(crate) fn new(code: Code) -> Verified
        requires { code_is.Verified (code_of code) }
        ensures { result.code ≡ code }
    {
        Verified { code }
    }

    /// The code.
    pub fn code(&self) -> &Code
        ensures value { result.now ≡ self.now.code }
        ensures verified { code_is.Verified (code_of result.now) }
    {
        &self.code
    }
}
