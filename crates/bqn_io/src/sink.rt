ghost use Rattle.std.specs.Prelude.{◌≡◌, ◌≤◌, ◌-◌, ℕ, List, length, Option, OnErr, OnOk, IsOk};
ghost use Rattle.bqn_io.specs.Devices.{added as and_behind, AddsFront, Rose};

use crate::failed::Failed;

/// Where bytes go.
///
/// `faults` counts the puts that failed. `written` is the bytes that are written, where they are
/// told. `room` is how many further bytes are taken without a fault.
pub trait Sink {
    ghost faults: { Self → ℕ };

    ghost written: { Self → Option (List ℕ) };

    ghost room: { Self → ℕ };

    /// Adds the piece behind what is written. After a fault a front of the piece was added.
    fn put(&mut self, piece: &[u8]) -> Result<(), Failed>
        ensures added { OnOk result (written self.new ≡ and_behind (written self.old) piece.now) }
        ensures failed { OnErr result (AddsFront (written self.old) (written self.new) piece.now) }
        ensures empty { length piece.now ≡ 0 → IsOk result }
        ensures room { length piece.now ≤ room self.old → IsOk result × (room self.new ≡ room self.old - length piece.now) }
        ensures rose { OnErr result (Rose (faults self.old) (faults self.new)) }
        ensures counted { OnOk result (faults self.new ≡ faults self.old) }
        ensures never_falls { faults self.old ≤ faults self.new };
}
