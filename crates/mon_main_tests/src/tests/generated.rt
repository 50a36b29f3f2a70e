//! Runs of generated programs.

use super::{sink, texts};
use mon_main::{Status, host_serial};
use mon_outside::MemoryStore;
use std::alloc::{AllocError, Global};
use std::test::Fail;

/// Sizes, each with what all four threads come to.
const SIZES: [(&str, &str); 3] = [
    ("1", "steps 183 records 46 returned 190"),
    ("2", "steps 361 records 90 returned 381"),
    ("100", "steps 17805 records 4402 returned 23950"),
];

/// What `gen` answers to a size and writes, and how often it reads.
fn generated(alloc: Global, size: &str) -> Result<(Status, Vec<u8>, u64), AllocError> {
    let mut store = MemoryStore::new(Vec::new(alloc), Vec::new(alloc));
    let words = texts(alloc, &["gen", size])?;
    let mut out = sink(alloc, &[])?;
    let status = host_serial(alloc, words.as_slice(), &mut store, &mut out);
    Ok((status, out.bytes, store.reads))
}

/// The lines of four threads that come to the same.
fn four_threads(alloc: Global, counts: &str) -> Result<String, AllocError> {
    let mut text = String::new(alloc);
    for number in 0..4u8 {
        write!(text, "thread {number} {counts}\n")?;
    }
    Ok(text)
}

#[test]
fn generated_runs_are_summed_up(rt: HostRuntime) -> Result<(), Fail> {
    for (size, counts) in SIZES {
        let (status, written, reads) = generated(rt.alloc(), size)?;
        let want = four_threads(rt.alloc(), counts)?;
        assert_eq!(rt; status, Status::Done);
        assert_eq!(rt; written.as_slice(), want.as_bytes(), "of size {size}");
        assert_eq!(rt; reads, 0);
    }
    Ok(())
}
