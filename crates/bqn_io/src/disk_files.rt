ghost use Rattle.std.specs.Prelude.{◌≡◌, IfSome, false};
ghost use Rattle.bqn_io.specs.Devices.{Fetches, Kept, Untold};

use crate::files::{FetchError, Fetched, Files};
use bqn_base::Row;
use std::alloc::Global;
use std::io::Read;
use std::{cmp, fs, rt};

/// The bytes that are read in one call, at most.
const PIECE: usize = 4096;

/// The files of the system. Nothing is told of them, and each error of the system is a fault, which
/// counts for all names.
#[derive(Debug, Drop)]
pub struct DiskFiles<R> {
    runtime: R,
    faults: u64,
}

impl<R: rt::Files> DiskFiles<R> {
    /// The files that this runtime reaches.
    pub fn new(runtime: R) -> DiskFiles<R>
        ensures { result.faults ≡ 0 }
    {
        DiskFiles { runtime, faults: 0 }
    }

    fn read(&self, alloc: Global, name: &str, limit: usize) -> Result<Fetched, FetchError>
        ensures { Fetches Untold limit result }
    {
        match fs::open(&self.runtime, name) {
            Ok(mut file) => read_whole(alloc, &mut file, limit),
            Err(_) => Err(FetchError::Failed),
        }
    }
}

/// Reads to the end, or to one byte more than the limit.
fn read_whole<R: Read>(alloc: Global, reader: &mut R, limit: usize) -> Result<Fetched, FetchError>
    ensures bound { Fetches Untold limit result }
    ensures told { IfSome (R.remaining reader.old) (λ bytes. Fetches (Kept bytes) limit result) }
{
    let mut bytes = Vec::new(alloc);
    let mut piece = [0; PIECE];
    loop {
        let spare = limit - bytes.len();
        let into = &mut piece[..cmp::min(spare, PIECE - 1) + 1];
        match reader.read(into) {
            Ok(0) => return Ok(Fetched::Whole(Row::new(bytes))),
            Ok(count) if count > spare => return Ok(Fetched::Longer),
            Ok(count) => {
                if bytes.extend_from_slice(into.split_at(count).0).is_err() {
                    return Err(FetchError::Memory);
                }
            }
            Err(_) => return Err(FetchError::Failed),
        }
    }
}

impl<R: rt::Files> Files for DiskFiles<R> {
    ghost faults = { λ disk name. disk.faults };

    ghost told = { λ disk name. Untold };

    ghost is_steady = { λ disk. false };

    fn fetch(&mut self, alloc: Global, name: &str, limit: usize) -> Result<Fetched, FetchError> {
        let fetched = self.read(alloc, name, limit);
        if matches!(&fetched, Err(FetchError::Failed)) {
            self.faults = self.faults.saturating_add(1);
        }
        fetched
    }
}

#[cfg(test)]
mod tests {
    use super::*;
    use crate::fake::FakeReader;

    // A whole file by its length, and else what is answered in its place.
    fn shown(fetched: &Result<Fetched, FetchError>) -> Result<Option<usize>, FetchError> {
        match fetched {
            Ok(Fetched::Whole(bytes)) => Ok(Some(bytes.list().len())),
            Ok(Fetched::Longer) => Ok(None),
            Err(error) => Err(*error),
        }
    }

    // By the bytes of the file, the limit and the read that fails.
    const READS: [(usize, usize, u64, Result<Option<usize>, FetchError>); 6] = [
        (3, 3, 0, Ok(Some(3))),
        (3, 2, 0, Ok(None)),
        (0, 0, 0, Ok(Some(0))),
        (3, 3, 2, Err(FetchError::Failed)),
        (usize::MAX, 5000, 0, Ok(None)),
        (9, usize::MAX, 0, Ok(Some(9))),
    ];

    #[test]
    fn reads_up_to_the_limit(rt: HostRuntime) {
        for (left, limit, fails_at, want) in READS {
            let mut reader = FakeReader {
                left,
                fails_at,
                calls: 0,
            };
            let fetched = read_whole(rt.alloc(), &mut reader, limit);
            assert_eq!(rt; shown(&fetched), want, "at {left} bytes");
        }
    }

    #[test]
    fn a_missing_file_is_a_fault(rt: HostRuntime) {
        let alloc = rt.alloc();
        let mut disk = DiskFiles::new(rt);
        let fetched = disk.fetch(alloc, "no/such/file", 9);
        assert_eq!(rt; shown(&fetched), Err(FetchError::Failed));
        assert_eq!(rt; disk.faults, 1);
    }
}
