ghost use Rattle.std.specs.Prelude.{◌≡◌, None, OnOk};
ghost use Rattle.std.specs.Io.KnownBytes.{Appends};

use crate::failed::Failed;
use crate::sink::Sink;
use std::io::Write;

/// What a writer of std takes. Nothing is told of its bytes, and each of its errors is a fault.
#[derive(Debug, Drop)]
pub struct StdSink<W> {
    writer: W,
    faults: u64,
}

impl<W: Write> StdSink<W> {
    /// The sink of that writer, to which nothing is written yet.
    pub fn new(writer: W) -> StdSink<W>
        ensures { result.faults ≡ 0 }
    {
        StdSink { writer, faults: 0 }
    }
}

/// Writes the whole piece, where the writer takes it, and flushes it.
fn write_whole<W: Write>(writer: &mut W, piece: &[u8]) -> Result<(), Failed>
    ensures { OnOk result (Appends (W.contents writer.old) (W.contents writer.new) piece.now) }
{
    let mut rest = piece;
    while !rest.is_empty() {
        match writer.write(rest) {
            Ok(0) | Err(_) => return Err(Failed),
            Ok(count) => rest = rest.split_at(count).1,
        }
    }
    match writer.flush() {
        Ok(()) => Ok(()),
        Err(_) => Err(Failed),
    }
}

impl<W: Write> Sink for StdSink<W> {
    ghost faults = { λ sink. sink.faults };

    ghost written = { λ sink. None };

    ghost room = { λ sink. 0 };

    fn put(&mut self, piece: &[u8]) -> Result<(), Failed> {
        if piece.is_empty() {
            return Ok(());
        }
        let put = write_whole(&mut self.writer, piece);
        if put.is_err() {
            self.faults = self.faults.saturating_add(1);
        }
        put
    }
}

#[cfg(test)]
mod tests {
    use super::*;
    use crate::fake::FakeWriter;
    use std::test::Fail;

    // By the call that fails and the one that takes none: a put of 3 bytes is 2 writes and a flush.
    const PUTS: [(u64, u64, Result<(), Failed>, &[u8]); 5] = [
        (0, 0, Ok(()), b"abc"),
        (1, 0, Err(Failed), b""),
        (2, 0, Err(Failed), b"ab"),
        (3, 0, Err(Failed), b"abc"),
        (0, 2, Err(Failed), b"ab"),
    ];

    #[test]
    fn writes_until_all_is_taken(rt: HostRuntime) -> Result<(), Fail> {
        for (fails_at, idle_at, want, written) in PUTS {
            let mut sink = StdSink::new(FakeWriter {
                bytes: Vec::new(rt.alloc()),
                fails_at,
                idle_at,
                calls: 0,
            });
            assert_eq!(rt; sink.put(b""), Ok(()));
            assert_eq!(rt; sink.writer.calls, 0);
            assert_eq!(rt; sink.put(b"abc"), want);
            assert_eq!(rt; sink.writer.bytes.as_slice(), written);
            assert_eq!(rt; sink.faults == 0, want.is_ok());
        }
        Ok(())
    }
}
