ghost use Rattle.std.specs.Prelude.{◌≡◌, ◌≤◌, ℕ, List, map, IfOk};
ghost use Rattle.std.specs.List.{position};
ghost use Rattle.bqn_io.specs.Devices.{Kept, Fetches, IsNoFailure};
ghost use Rattle.bqn_io.specs.States.{faults_in, has_name, is_empty, kept_file, failed_once, numbered, told_in};

use crate::calls::Calls;
use crate::files::{FetchError, Fetched, Files};
use bqn_base::{Memory, Row, Text};
use std::alloc::Global;
use std::marker::Model;

/// A file: its name, its bytes, and how many fetches of it have failed.
#[derive(Debug, Drop)]
struct KeptFile {
    name: String,
    bytes: Vec<u8>,
    faults: u64,
}

impl Model for KeptFile {
    ghost use Rattle.std.specs.Prelude.{string_bytes};
    ghost use Rattle.bqn_io.specs.States.{KeptFile as File};

    ghost Value = { File };

    ghost view = { λ file. record { name = string_bytes file.name; bytes = file.bytes.items; faults = file.faults } };
}

impl KeptFile {
    fn new(alloc: Global, name: &Text, bytes: Vec<u8>) -> Result<KeptFile, Memory>
        ensures { IfOk result (λ file. file ≡ kept_file (name.now, bytes)) }
    {
        match name.chars().iter().copied().collect(alloc) {
            Ok(name) => Ok(KeptFile {
                name,
                bytes,
                faults: 0,
            }),
            Err(_) => Err(Memory),
        }
    }

    fn is_named(&self, name: &str) -> bool
        ensures { result ≡ has_name name.now self.now }
    {
        self.name.as_str() == name
    }

    fn fail(&mut self)
        ensures after { self.new ≡ failed_once self.old }
        ensures grows { self.old.faults ≤ self.new.faults }
    {
        self.faults = self.faults.saturating_add(1);
    }

    fn give(&self, alloc: Global, limit: usize) -> Result<Fetched, FetchError>
        ensures value { Fetches (Kept self.now.bytes) limit result }
        ensures no_failure { IsNoFailure result }
    {
        if self.bytes.len() > limit {
            return Ok(Fetched::Longer);
        }
        match Vec::from_slice(alloc, &self.bytes) {
            Ok(bytes) => Ok(Fetched::Whole(Row::new(bytes))),
            Err(_) => Err(FetchError::Memory),
        }
    }
}

fn keep(alloc: Global, files: Vec<(Text, Vec<u8>)>) -> Result<Vec<KeptFile>, Memory>
    ensures { IfOk result (λ kept. kept.items ≡ map kept_file files.items) }
{
    let mut kept = Vec::new(alloc);
    for (name, bytes) in files {
        let Ok(file) = KeptFile::new(alloc, &name, bytes) else {
            return Err(Memory);
        };
        if kept.push(file).is_err() {
            return Err(Memory);
        }
    }
    Ok(kept)
}

/// Files that are kept in memory.
#[derive(Debug, Drop)]
pub struct MemoryFiles {
    files: Vec<KeptFile>,
    calls: Calls,
    others: u64,
}

impl Model for MemoryFiles {
    ghost use Rattle.bqn_io.specs.States.{Shelf};

    ghost Value = { Shelf };

    ghost view = { λ shelf. record { files = shelf.files.items; calls = shelf.calls; others = shelf.others } };
}

impl MemoryFiles {
    /// Keeps these files, each with its name; of two with one name, the first. `failing` has the
    /// numbers, from 1, of the fetches that fail.
    pub fn new(
        alloc: Global,
        files: Vec<(Text, Vec<u8>)>,
        failing: Vec<u64>,
    ) -> Result<MemoryFiles, Memory>
        ensures value { IfOk result (λ shelf. shelf ≡ record { files = map kept_file files.items; calls = numbered failing.items; others = 0 }) }
        ensures counts { IfOk result (λ shelf. (name : List ℕ) → faults_in shelf.files shelf.others name ≡ 0) }
    {
        let files = keep(alloc, files)?;
        Ok(MemoryFiles {
            files,
            calls: Calls::new(failing),
            others: 0,
        })
    }
}

/// The place of the first file of that name.
fn place_of(files: &[KeptFile], name: &str) -> Option<usize>
    ensures { result ≡ position (has_name name.now) files.now }
{
    files.iter().position(|file| file.is_named(name))
}

impl Files for MemoryFiles {
    ghost faults = { λ shelf. faults_in shelf.files shelf.others };

    ghost told = { λ shelf. told_in shelf.files };

    ghost is_steady = { λ shelf. is_empty shelf.calls.failing };

    fn fetch(&mut self, alloc: Global, name: &str, limit: usize) -> Result<Fetched, FetchError> {
        let fails = self.calls.next_fails();
        match place_of(&self.files, name) {
            None => {
                self.others = self.others.saturating_add(1);
                Err(FetchError::Failed)
            }
            Some(place) if fails => {
                self.files[place].fail();
                Err(FetchError::Failed)
            }
            Some(place) => self.files[place].give(alloc, limit),
        }
    }
}

#[cfg(test)]
mod tests {
    use super::*;
    use std::test::Fail;

    // What a fetch gave: the bytes, or the name of what it answered in their place.
    fn shown(fetched: &Result<Fetched, FetchError>) -> &[u8] {
        match fetched {
            Ok(Fetched::Whole(bytes)) => bytes.list(),
            Ok(Fetched::Longer) => b"Longer",
            Err(FetchError::Failed) => b"Failed",
            Err(FetchError::Memory) => b"Memory",
        }
    }

    // In order; the fifth fails.
    const FETCHES: [(&str, usize, &[u8]); 6] = [
        ("é", 3, b"one"),
        ("é", 2, b"Longer"),
        ("b", 0, b""),
        ("c", 9, b"Failed"),
        ("é", 9, b"Failed"),
        ("é", 9, b"one"),
    ];

    #[test]
    fn gives_the_first_of_a_name(rt: HostRuntime) -> Result<(), Fail> {
        let alloc = rt.alloc();
        let mut files = Vec::new(alloc);
        files.push((Text::new(alloc, &['é'])?, Vec::from_slice(alloc, b"one")?))?;
        files.push((Text::new(alloc, &['b'])?, Vec::new(alloc)))?;
        files.push((Text::new(alloc, &['é'])?, Vec::from_slice(alloc, b"two")?))?;
        let mut files = MemoryFiles::new(alloc, files, Vec::from_slice(alloc, &[5])?)?;
        for (name, limit, want) in FETCHES {
            assert_eq!(rt; shown(&files.fetch(alloc, name, limit)), want);
        }
        Ok(())
    }
}
