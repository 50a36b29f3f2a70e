mod disables;
mod failing;
mod overlap;
mod words;

use mon_main::{Status, Unheld, host};
use mon_outside::{MemoryFile, MemorySink, MemoryStore};
use mon_run::Beat;
use std::alloc::{AllocError, Global};
use std::str;
use std::sync::Wait;
use std::test::Fail;
use std::thread::Threads;

/// A file with a plan.
#[derive(Clone, Copy)]
struct Trial {
    program: &'static str,
    plan: &'static str,
}

/// A status, what was written, and how often it was read and written.
#[derive(Drop)]
struct Ending {
    status: Status,
    bytes: Vec<u8>,
    reads: u64,
    writes: u64,
}

impl Ending {
    /// What was written.
    fn text(&self) -> &str {
        str::from_utf8(self.bytes.as_slice()).unwrap_or("")
    }
}

fn file(alloc: Global, name: &str, contents: &str) -> Result<MemoryFile, AllocError> {
    Ok(MemoryFile {
        name: String::from_str(alloc, name)?,
        contents: Vec::from_slice(alloc, contents.as_bytes())?,
    })
}

fn store(alloc: Global, trial: &Trial, failing: &[u64]) -> Result<MemoryStore, AllocError> {
    let mut files = Vec::new(alloc);
    files.push(file(alloc, "program", trial.program)?)?;
    files.push(file(alloc, "plan", trial.plan)?)?;
    Ok(MemoryStore::new(files, Vec::from_slice(alloc, failing)?))
}

fn texts(alloc: Global, words: &[&str]) -> Result<Vec<String>, AllocError> {
    let mut all = Vec::new(alloc);
    for word in words {
        all.push(String::from_str(alloc, word)?)?;
    }
    Ok(all)
}

/// How a run ends where the reads and the writes of these numbers fail.
fn end_of<R: Threads + Wait + Sync, B: Beat + Sync>(
    rt: &R,
    alloc: Global,
    trial: &Trial,
    beat: &B,
    reads: &[u64],
    writes: &[u64],
) -> Result<Ending, AllocError> {
    let words = texts(alloc, &["run", "program", "plan"])?;
    let mut store = store(alloc, trial, reads)?;
    let mut out = MemorySink::new(Vec::new(alloc), Vec::from_slice(alloc, writes)?);
    let status = host(rt, alloc, words.as_slice(), &mut store, &mut out, beat);
    Ok(Ending {
        status,
        bytes: out.bytes,
        reads: store.reads,
        writes: out.writes,
    })
}
