ghost use Rattle.std.specs.Prelude.{◌≡◌, None, OnErr};

use crate::sink::{Sink, SinkFault};
use crate::store::{READ_LIMIT, Store, StoreFault};
use std::alloc::Global;
use std::fs::File;
use std::io::{ErrorKind, Read};
use std::rt::Files;

/// The files of the system. What they hold is not told.
#[derive(Drop)]
pub struct FileStore<'a, R: Files> {
    files: &'a R,
    /// How many reads have failed.
    pub faults: u64,
    /// The name of the last read that failed.
    pub last_failed: Option<String>,
}

impl<'a, R: Files> FileStore<'a, R> {
    /// A store of these files, of which no read has failed.
    pub fn new(files: &'a R) -> FileStore<'a, R>
        ensures faults { result.faults ≡ 0 }
        ensures last_failed { result.last_failed ≡ None }
    {
        FileStore {
            files,
            faults: 0,
            last_failed: None,
        }
    }
}

impl<R: Files> Store for FileStore<'_, R> {
    ghost use Rattle.std.specs.Prelude.{None, string_bytes};
    ghost use Rattle.std.specs.Option.{option_map};

    ghost holds = { λ _ _. None };

    ghost faults = { λ s. s.faults };

    ghost last_failed = { λ s. option_map string_bytes s.last_failed };

    fn read(&mut self, alloc: Global, name: &str, into: &mut Vec<u8>) -> Result<(), StoreFault> {
        let copy = String::from_str(alloc, name)?;
        match append_file(self.files, name, into) {
            Ok(()) => Ok(()),
            Err(StoreFault::Memory) => Err(StoreFault::Memory),
            Err(StoreFault::Failed) => {
                self.faults = self.faults.saturating_add(1);
                self.last_failed = Some(copy);
                Err(StoreFault::Failed)
            }
        }
    }
}

/// Appends the first bytes of a file.
fn append_file<R: Files>(files: &R, name: &str, into: &mut Vec<u8>) -> Result<(), StoreFault>
    ensures { OnErr result (into.new.items ≡ into.old.items) }
{
    let before = into.len();
    let result = match File::open(files, name) {
        Ok(file) => file.take(READ_LIMIT as u64).read_to_end(into),
        Err(e) => Err(e),
    };
    match result {
        Ok(_) => Ok(()),
        Err(e) => {
            into.truncate(before);
            if e.kind() == ErrorKind::OutOfMemory {
                Err(StoreFault::Memory)
            } else {
                Err(StoreFault::Failed)
            }
        }
    }
}

/// The standard output. What was written is not told.
#[derive(Drop)]
pub struct StdoutSink<'a, P: Print> {
    out: &'a P,
    /// How many writes have failed.
    pub faults: u64,
}

impl<'a, P: Print> StdoutSink<'a, P> {
    /// A sink to this output, of which no write has failed.
    pub fn new(out: &'a P) -> StdoutSink<'a, P>
        ensures { result.faults ≡ 0 }
    {
        StdoutSink { out, faults: 0 }
    }
}

impl<P: Print> Sink for StdoutSink<'_, P> {
    ghost use Rattle.std.specs.Prelude.{None};

    ghost written = { λ _. None };

    ghost faults = { λ s. s.faults };

    fn write(&mut self, piece: &[u8]) -> Result<(), SinkFault> {
        let mut at = 0;
        while at < piece.len() {
            match self.out.write_some(&piece[at..]) {
                Ok(count) if count > 0 => at += count,
                _ => {
                    self.faults = self.faults.saturating_add(1);
                    return Err(SinkFault::Failed);
                }
            }
        }
        Ok(())
    }
}
