ghost use Rattle.std.specs.Prelude.{◌≡◌, ℕ, Bool, true, List};
ghost use Rattle.bqn_io.specs.Devices.{Told, Fetches, IsKept, IsNoFailure, NoneFell, OnFailed, OnNoFailure, Rose};

use bqn_base::Row;
use std::alloc::Global;

/// What a fetch gives: the whole file, or that it has more bytes than the limit.
#[derive(Debug, Drop)]
pub enum Fetched {
    Whole(Row<u8>),
    Longer,
}

/// Why a fetch gives nothing: a fault of the device, as a missing file, or want of memory.
#[derive(Clone, Copy, Debug, PartialEq, Eq)]
pub enum FetchError {
    Failed,
    Memory,
}

/// Who keeps files. A name is told by its bytes in UTF-8.
///
/// `faults` counts, for each name, the fetches that failed. `told` is what is told of a name.
/// `is_steady` says whether no fetch of a kept file fails.
pub trait Files {
    ghost faults: { Self → List ℕ → ℕ };

    ghost told: { Self → List ℕ → Told };

    ghost is_steady: { Self → Bool };

    /// The bytes of the file of that name, unless they are more than `limit`.
    ///
    /// # Errors
    ///
    /// `Failed` where the device failed or has no such file, `Memory` where memory is wanting.
    fn fetch(&mut self, alloc: Global, name: &str, limit: usize) -> Result<Fetched, FetchError>
        ensures value { Fetches (told self.old name.now) limit result }
        ensures kept { told self.new ≡ told self.old }
        ensures rose { OnFailed result (Rose (faults self.old name.now) (faults self.new name.now)) }
        ensures counted { OnNoFailure result (faults self.new ≡ faults self.old) }
        ensures never_falls { NoneFell (faults self.old) (faults self.new) }
        ensures steady { is_steady self.old ≡ true → IsKept (told self.old name.now) → IsNoFailure result }
        ensures stays_steady { is_steady self.new ≡ is_steady self.old };
}
