ghost use Rattle.std.specs.Prelude.{◌≡◌, None, MatchOption, Some};
ghost use Rattle.mon_outside.specs.Memories.{contents_of};

use crate::sink::{Sink, SinkFault};
use crate::store::{READ_LIMIT, Store, StoreFault};
use std::alloc::Global;

/// A name and what it stands for.
#[derive(Debug, Drop)]
pub struct MemoryFile {
    pub name: String,
    pub contents: Vec<u8>,
}

/// A store in memory, which fails at the reads that it is told to fail at.
#[derive(Debug, Drop)]
pub struct MemoryStore {
    pub files: Vec<MemoryFile>,
    /// The numbers of the reads that fail; the first read has the number 0.
    pub failing: Vec<u64>,
    /// How many reads were asked for.
    pub reads: u64,
    /// How many reads have failed.
    pub faults: u64,
    /// The name of the last read that failed.
    pub last_failed: Option<String>,
}

impl MemoryStore {
    /// A store of these files.
    pub fn new(files: Vec<MemoryFile>, failing: Vec<u64>) -> MemoryStore
        ensures { result ≡ record { files = files; failing = failing; reads = 0; faults = 0; last_failed = None } }
    {
        MemoryStore {
            files,
            failing,
            reads: 0,
            faults: 0,
            last_failed: None,
        }
    }
}

impl Store for MemoryStore {
    ghost use Rattle.std.specs.Prelude.{string_bytes};
    ghost use Rattle.std.specs.Option.{option_map};
    ghost use Rattle.mon_outside.specs.Memories.{contents_of};

    ghost holds = { λ s name. contents_of s.files.items name };

    ghost faults = { λ s. s.faults };

    ghost last_failed = { λ s. option_map string_bytes s.last_failed };

    fn read(&mut self, alloc: Global, name: &str, into: &mut Vec<u8>) -> Result<(), StoreFault> {
        let copy = String::from_str(alloc, name)?;
        let number = self.reads;
        self.reads = self.reads.saturating_add(1);
        if !self.failing.contains(&number)
            && let Some(bytes) = contents(self.files.as_slice(), name)
        {
            into.extend_from_slice(&bytes[..bytes.len().min(READ_LIMIT)])?;
            return Ok(());
        }
        self.faults = self.faults.saturating_add(1);
        self.last_failed = Some(copy);
        Err(StoreFault::Failed)
    }
}

/// The contents of the first file with this name.
fn contents<'a>(files: &'a [MemoryFile], name: &str) -> Option<&'a [u8]>
    ensures { MatchOption result (contents_of files.now name.now ≡ None) (λ c. contents_of files.now name.now ≡ Some c.now) }
{
    for file in files {
        if file.name.as_str() == name {
            return Some(file.contents.as_slice());
        }
    }
    None
}

/// A sink that keeps its bytes, and fails at the writes that it is told to fail at. A write that fails so takes the first
/// half of its piece.
#[derive(Debug, Drop)]
pub struct MemorySink {
    pub bytes: Vec<u8>,
    /// The numbers of the writes that fail; the first write of a piece that is not empty has the number 0.
    pub failing: Vec<u64>,
    /// How many writes of a piece that is not empty were asked for.
    pub writes: u64,
    /// How many writes have failed.
    pub faults: u64,
}

impl MemorySink {
    /// A sink that holds these bytes, and to which nothing was written.
    pub fn new(bytes: Vec<u8>, failing: Vec<u64>) -> MemorySink
        ensures { result ≡ record { bytes = bytes; failing = failing; writes = 0; faults = 0 } }
    {
        MemorySink {
            bytes,
            failing,
            writes: 0,
            faults: 0,
        }
    }
}

impl Sink for MemorySink {
    ghost use Rattle.std.specs.Prelude.{Some};

    ghost written = { λ s. Some s.bytes.items };

    ghost faults = { λ s. s.faults };

    fn write(&mut self, piece: &[u8]) -> Result<(), SinkFault> {
        if piece.is_empty() {
            return Ok(());
        }
        let number = self.writes;
        self.writes = self.writes.saturating_add(1);
        let taken = if self.failing.contains(&number) {
            piece.len() / 2
        } else {
            piece.len()
        };
        let is_kept = self.bytes.extend_from_slice(&piece[..taken]).is_ok();
        if is_kept && taken == piece.len() {
            return Ok(());
        }
        self.faults = self.faults.saturating_add(1);
        Err(SinkFault::Failed)
    }
}
