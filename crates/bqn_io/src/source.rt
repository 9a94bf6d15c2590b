ghost use Rattle.std.specs.Prelude.{◌≡◌, ◌<◌, ◌≤◌, ℕ, Bool, true, List, length, take, Option, IfOk, OnErr, OnOk, IsOk};
ghost use Rattle.bqn_io.specs.Devices.{before, ended_after, NothingLeft, Rose};

use crate::failed::Failed;

/// Where bytes come from.
///
/// `faults` counts the takes that failed. `left` is the bytes that are left, where they are told.
/// `is_ended` says whether the end was given, `is_steady` whether no take fails.
pub trait Source {
    ghost faults: { Self → ℕ };

    ghost left: { Self → Option (List ℕ) };

    ghost is_ended: { Self → Bool };

    ghost is_steady: { Self → Bool };

    /// Moves a front of what is left into the front of `into`, and answers how many bytes; for a
    /// nonempty `into`, 0 is the end of the input, and so is every later answer. After a fault
    /// nothing was taken.
    fn take(&mut self, into: &mut [u8]) -> Result<usize, Failed>
        ensures within { IfOk result (λ count. count ≤ length into.old) }
        ensures moved { IfOk result (λ count. left self.old ≡ before (take count into.new) (left self.new)) }
        ensures end { IfOk result (λ count. count ≡ 0 → 0 < length into.old → NothingLeft (left self.new)) }
        ensures ended { IfOk result (λ count. is_ended self.new ≡ ended_after (is_ended self.old) count (length into.old)) }
        ensures after_end { is_ended self.old ≡ true → result ≡ Ok 0 }
        ensures empty { length into.old ≡ 0 → result ≡ Ok 0 }
        ensures failed { OnErr result ((left self.new ≡ left self.old) × (is_ended self.new ≡ is_ended self.old)) }
        ensures rose { OnErr result (Rose (faults self.old) (faults self.new)) }
        ensures counted { OnOk result (faults self.new ≡ faults self.old) }
        ensures never_falls { faults self.old ≤ faults self.new }
        ensures steady { is_steady self.old ≡ true → IsOk result }
        ensures stays_steady { is_steady self.new ≡ is_steady self.old };
}
