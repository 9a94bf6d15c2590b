ghost use Rattle.std.specs.Prelude.{◌≡◌};
ghost use Rattle.bqn_io.specs.States.{after_next, fails_next, numbered};

use std::marker::Model;

/// The calls of a device, numbered from 1, of which those in `failing` fail.
#[derive(Debug, Drop)]
pub struct Calls {
    failing: Vec<u64>,
    made: u64,
}

impl Model for Calls {
    ghost use Rattle.bqn_io.specs.States.{Numbered};

    ghost Value = { Numbered };

    ghost view = { λ calls. record { failing = calls.failing.items; made = calls.made } };
}

impl Calls {
    /// No call yet.
    pub fn new(failing: Vec<u64>) -> Calls
        ensures { result ≡ numbered failing.items }
    {
        Calls { failing, made: 0 }
    }

    /// Numbers the next call, and answers whether it fails.
    pub fn next_fails(&mut self) -> bool
        ensures answer { result ≡ fails_next self.old }
        ensures after { self.new ≡ after_next self.old }
    {
        self.made = self.made.saturating_add(1);
        self.failing.contains(&self.made)
    }
}
