ghost use Rattle.std.specs.Prelude.{◌≡◌};
ghost use Rattle.bqn_compile.specs.Walking.{reads};

/// How many parts of a train are read from the right, two with one more in front being made one.
#[derive(Clone, Copy, Debug, PartialEq, Eq)]
pub enum Read {
    No,
    One,
    Two,
}

impl Read {
    /// Of so many parts.
    pub fn of(parts: usize) -> Read
        ensures { result ≡ reads parts }
    {
        if parts == 0 {
            Read::No
        } else if parts % 2 == 1 {
            Read::One
        } else {
            Read::Two
        }
    }
}
