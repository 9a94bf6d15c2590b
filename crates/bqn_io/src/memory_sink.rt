ghost use Rattle.std.specs.Prelude.{◌≡◌, [], IfOk, Some};
ghost use Rattle.bqn_io.specs.States.{numbered, room_of};

use crate::calls::Calls;
use crate::failed::Failed;
use crate::sink::Sink;
use bqn_base::Memory;
use std::alloc::Global;
use std::cmp;
use std::marker::Model;

/// A sink that keeps the bytes in memory.
#[derive(Debug, Drop)]
pub struct MemorySink {
    bytes: Vec<u8>,
    space: usize,
    calls: Calls,
    faults: u64,
}

impl Model for MemorySink {
    ghost use Rattle.std.specs.Prelude.{◌≤◌, ◌+◌, vec_len, vec_capacity};
    ghost use Rattle.bqn_io.specs.States.{Store};

    ghost Value = { Store };

    ghost view = { λ sink. record {
      written = sink.bytes.items;
      space = sink.space;
      calls = sink.calls;
      faults = sink.faults;
    } };

    ghost invariant = { λ sink. vec_len sink.bytes + sink.space ≤ vec_capacity sink.bytes };
}

impl MemorySink {
    /// A sink that holds `room` bytes; it takes memory for them at once, and no put takes any.
    /// `failing` has the numbers, from 1, of the puts that fail and add nothing. A put of an empty
    /// piece has no number. A put that passes the room adds the part that fits, and fails.
    pub fn new(alloc: Global, room: usize, failing: Vec<u64>) -> Result<MemorySink, Memory>
        ensures { IfOk result (λ sink. sink ≡ record { written = []; space = room; calls = numbered failing.items; faults = 0 }) }
    {
        match Vec::with_capacity(alloc, room) {
            Ok(bytes) => Ok(MemorySink {
                bytes,
                space: room,
                calls: Calls::new(failing),
                faults: 0,
            }),
            Err(_) => Err(Memory),
        }
    }

    /// The bytes that are written.
    pub fn written(&self) -> &[u8]
        ensures { result.now ≡ self.now.written }
    {
        self.bytes.as_slice()
    }
}

impl Sink for MemorySink {
    ghost faults = { λ sink. sink.faults };

    ghost written = { λ sink. Some sink.written };

    ghost room = { room_of };

    fn put(&mut self, piece: &[u8]) -> Result<(), Failed> {
        if piece.is_empty() {
            return Ok(());
        }
        if self.calls.next_fails() {
            self.faults = self.faults.saturating_add(1);
            return Err(Failed);
        }
        let (front, rest) = piece.split_at(cmp::min(piece.len(), self.space));
        let added = self.bytes.extend_from_slice(front);
        self.space -= front.len();
        if added.is_ok() && rest.is_empty() {
            return Ok(());
        }
        self.faults = self.faults.saturating_add(1);
        Err(Failed)
    }
}

#[cfg(test)]
mod tests {
    use super::*;
    use std::test::Fail;

    // What a caller knows of a put within the room of a new sink.
    fn stored(alloc: Global, piece: &[u8]) -> Result<MemorySink, Memory>
        ensures { IfOk result (λ sink. sink.written ≡ piece.now) }
    {
        let mut sink = MemorySink::new(alloc, piece.len(), Vec::new(alloc))?;
        let put = sink.put(piece);
        prove!(put.is_ok());
        Ok(sink)
    }

    // In order: the second numbered put fails, and the third passes the room.
    const PUTS: [(&[u8], Result<(), Failed>); 6] = [
        (b"ab", Ok(())),
        (b"", Ok(())),
        (b"x", Err(Failed)),
        (b"cdef", Err(Failed)),
        (b"", Ok(())),
        (b"g", Err(Failed)),
    ];

    #[test]
    fn keeps_what_fits(rt: HostRuntime) -> Result<(), Fail> {
        let alloc = rt.alloc();
        let mut sink = MemorySink::new(alloc, 5, Vec::from_slice(alloc, &[2])?)?;
        for (piece, want) in PUTS {
            assert_eq!(rt; sink.put(piece), want);
        }
        assert_eq!(rt; sink.written(), b"abcde".as_slice());
        Ok(())
    }

    #[test]
    fn keeps_a_piece(rt: HostRuntime) -> Result<(), Fail> {
        assert_eq!(rt; stored(rt.alloc(), b"ab")?.written(), b"ab".as_slice());
        Ok(())
    }
}
