ghost use Rattle.std.specs.Prelude.{◌≡◌, false, None};

use crate::failed::Failed;
use crate::source::Source;
use std::io::Read;

/// What a reader of std gives. Nothing is told of its bytes, and each of its errors is a fault.
#[derive(Debug, Drop)]
pub struct StdSource<R> {
    reader: R,
    faults: u64,
    is_ended: bool,
}

impl<R: Read> StdSource<R> {
    /// The source of that reader, which is not read yet.
    pub fn new(reader: R) -> StdSource<R>
        ensures faults { result.faults ≡ 0 }
        ensures goes_on { result.is_ended ≡ false }
    {
        StdSource {
            reader,
            faults: 0,
            is_ended: false,
        }
    }
}

impl<R: Read> Source for StdSource<R> {
    ghost faults = { λ source. source.faults };

    ghost left = { λ source. None };

    ghost is_ended = { λ source. source.is_ended };

    ghost is_steady = { λ source. false };

    fn take(&mut self, into: &mut [u8]) -> Result<usize, Failed> {
        if self.is_ended || into.is_empty() {
            return Ok(0);
        }
        match self.reader.read(into) {
            Ok(count) => {
                self.is_ended = count == 0;
                Ok(count)
            }
            Err(_) => {
                self.faults = self.faults.saturating_add(1);
                Err(Failed)
            }
        }
    }
}

#[cfg(test)]
mod tests {
    use super::*;
    use crate::fake::FakeReader;
    use std::test::Fail;

    // In order: the second read fails, and after the end no read is made.
    const TAKES: [(usize, Result<usize, Failed>, u64); 6] = [
        (3, Ok(2), 1),
        (0, Ok(0), 1),
        (3, Err(Failed), 2),
        (3, Ok(1), 3),
        (3, Ok(0), 4),
        (3, Ok(0), 4),
    ];

    #[test]
    fn passes_on_what_is_read(rt: HostRuntime) -> Result<(), Fail> {
        let mut source = StdSource::new(FakeReader {
            left: 3,
            fails_at: 2,
            calls: 0,
        });
        for (size, want, calls) in TAKES {
            let mut into = Vec::from_elem(rt.alloc(), 0, size)?;
            assert_eq!(rt; source.take(&mut into), want);
            assert_eq!(rt; source.reader.calls, calls);
        }
        assert_eq!(rt; source.faults, 1);
        Ok(())
    }
}
