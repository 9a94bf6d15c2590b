//! A reader and a writer that fail where a test wants it.

use std::io;
use std::io::{Read, Write};

/// A reader of `left` bytes `a`, at most 2 in one call, of which the call `fails_at` fails.
#[derive(Drop)]
pub struct FakeReader {
    pub left: usize,
    pub fails_at: u64,
    pub calls: u64,
}

impl Read for FakeReader {
    fn read(&mut self, buf: &mut [u8]) -> io::Result<usize> {
        self.calls = self.calls.saturating_add(1);
        if self.calls == self.fails_at {
            return Err(io::Error::from(io::ErrorKind::Interrupted));
        }
        let mut count = 0;
        for byte in buf.iter_mut() {
            if count == 2 || self.left == 0 {
                break;
            }
            *byte = b'a';
            self.left -= 1;
            count += 1;
        }
        Ok(count)
    }
}

/// A writer that takes at most 2 bytes in one call. The call `fails_at` fails, the call `idle_at`
/// takes none, and flushes are calls.
#[derive(Drop)]
pub struct FakeWriter {
    pub bytes: Vec<u8>,
    pub fails_at: u64,
    pub idle_at: u64,
    pub calls: u64,
}

impl Write for FakeWriter {
    fn write(&mut self, buf: &[u8]) -> io::Result<usize> {
        self.flush()?;
        if self.calls == self.idle_at {
            return Ok(0);
        }
        let piece = if buf.len() > 2 { &buf[..2] } else { buf };
        self.bytes.extend_from_slice(piece)?;
        Ok(piece.len())
    }

    fn flush(&mut self) -> io::Result<()> {
        self.calls = self.calls.saturating_add(1);
        if self.calls == self.fails_at {
            return Err(io::Error::from(io::ErrorKind::Interrupted));
        }
        Ok(())
    }
}
