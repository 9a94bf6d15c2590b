ghost use Rattle.std.specs.Prelude.{◌≡◌, IsOk, Some, false, max, true};
ghost use Rattle.bqn_io.specs.States.{is_empty, numbered};

use crate::calls::Calls;
use crate::failed::Failed;
use crate::source::Source;
use std::cmp;
use std::marker::Model;

/// A source over bytes in memory.
#[derive(Debug, Drop)]
pub struct MemorySource {
    bytes: Vec<u8>,
    given: usize,
    most: usize,
    calls: Calls,
    faults: u64,
    is_ended: bool,
}

impl Model for MemorySource {
    ghost use Rattle.std.specs.Prelude.{◌≡◌, ◌≤◌, ◌<◌, drop, length, true};
    ghost use Rattle.bqn_io.specs.States.{Supply};

    ghost Value = { Supply };

    ghost view = { λ source. record {
      left = drop source.given source.bytes.items;
      most = source.most;
      calls = source.calls;
      faults = source.faults;
      is_ended = source.is_ended;
    } };

    ghost invariant = { λ source. (source.given ≤ length source.bytes.items) × (0 < source.most) × (source.is_ended ≡ true → length source.bytes.items ≡ source.given) };
}

impl MemorySource {
    /// A source of these bytes that gives at most `piece` of them in one call, and at least 1.
    /// `failing` has the numbers, from 1, of the calls that fail. A call with an empty `into` and a
    /// call after the end have no number.
    pub fn new(bytes: Vec<u8>, piece: usize, failing: Vec<u64>) -> MemorySource
        ensures { result ≡ record { left = bytes.items; most = max piece 1; calls = numbered failing.items; faults = 0; is_ended = false } }
    {
        MemorySource {
            bytes,
            given: 0,
            most: cmp::max(piece, 1),
            calls: Calls::new(failing),
            faults: 0,
            is_ended: false,
        }
    }

    /// The bytes that are left.
    pub fn left(&self) -> &[u8]
        ensures { result.now ≡ self.now.left }
    {
        self.bytes.split_at(self.given).1
    }
}

impl Source for MemorySource {
    ghost faults = { λ source. source.faults };

    ghost left = { λ source. Some source.left };

    ghost is_ended = { λ source. source.is_ended };

    ghost is_steady = { λ source. is_empty source.calls.failing };

    #[tactic(auto, using(crate::proofs::Moved::moved))]
    fn take(&mut self, into: &mut [u8]) -> Result<usize, Failed> {
        if self.is_ended || into.is_empty() {
            return Ok(0);
        }
        if self.calls.next_fails() {
            self.faults = self.faults.saturating_add(1);
            return Err(Failed);
        }
        let left = self.bytes.split_at(self.given).1;
        let count = cmp::min(left.len(), cmp::min(self.most, into.len()));
        into[..count].copy_from_slice(left.split_at(count).0);
        self.given += count;
        self.is_ended = count == 0;
        Ok(count)
    }
}

#[cfg(test)]
mod tests {
    use super::*;
    use std::alloc::Global;
    use std::test::Fail;

    // What a caller with any source knows where no take fails.
    fn first<S: Source>(source: &mut S, into: &mut [u8]) -> Result<usize, Failed>
        requires { S.is_steady source.old ≡ true }
        ensures { IsOk result }
    {
        source.take(into)
    }

    // What a caller knows of a new source whose list of failing calls is empty.
    fn count_of_first(alloc: Global, bytes: Vec<u8>, into: &mut [u8]) -> usize {
        let mut source = MemorySource::new(bytes, 1, Vec::new(alloc));
        let taken = first(&mut source, into);
        prove!(taken.is_ok());
        taken.unwrap_or(0)
    }

    // By the size of `into`, in order: at most 2 bytes come, and the second numbered call fails.
    const TAKES: [(usize, Result<usize, Failed>); 8] = [
        (0, Ok(0)),
        (3, Ok(2)),
        (3, Err(Failed)),
        (0, Ok(0)),
        (1, Ok(1)),
        (3, Ok(2)),
        (3, Ok(0)),
        (3, Ok(0)),
    ];

    #[test]
    fn gives_pieces(rt: HostRuntime) -> Result<(), Fail> {
        let alloc = rt.alloc();
        let failing = Vec::from_slice(alloc, &[2, 6])?;
        let mut source = MemorySource::new(Vec::from_slice(alloc, b"abcde")?, 2, failing);
        let mut seen = Vec::new(alloc);
        for (size, want) in TAKES {
            let mut into = Vec::from_elem(alloc, 0, size)?;
            let taken = source.take(&mut into);
            assert_eq!(rt; taken, want, "at {size}");
            into.truncate(taken.unwrap_or(0));
            seen.extend_from_slice(&into)?;
        }
        assert_eq!(rt; seen.as_slice(), b"abcde".as_slice());
        assert_eq!(rt; source.left().len(), 0);
        Ok(())
    }

    #[test]
    fn no_piece_is_empty(rt: HostRuntime) -> Result<(), Fail> {
        let alloc = rt.alloc();
        let mut source = MemorySource::new(Vec::from_slice(alloc, b"ab")?, 0, Vec::new(alloc));
        let mut into = [0; 2];
        assert_eq!(rt; source.take(&mut into), Ok(1));
        assert_eq!(rt; source.left(), b"b".as_slice());
        assert_eq!(rt;
            count_of_first(alloc, Vec::from_slice(alloc, b"ab")?, &mut into),
            1
        );
        Ok(())
    }
}
