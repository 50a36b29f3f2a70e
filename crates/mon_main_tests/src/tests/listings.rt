//! Listings of programs.

use super::{LOOP, file, sink, texts};
use mon_main::{Status, host_serial};
use mon_outside::MemoryStore;
use std::alloc::{AllocError, Global};
use std::test::Fail;

/// What `dis` answers to a file and writes, and how often it reads.
fn listed(alloc: Global, program: &str) -> Result<(Status, Vec<u8>, u64), AllocError> {
    let mut files = Vec::new(alloc);
    files.push(file(alloc, "program", program)?)?;
    let mut store = MemoryStore::new(files, Vec::new(alloc));
    let words = texts(alloc, &["dis", "program"])?;
    let mut out = sink(alloc, &[])?;
    let status = host_serial(alloc, words.as_slice(), &mut store, &mut out);
    Ok((status, out.bytes, store.reads))
}

/// Files, how `dis` ends, and what it writes.
const FILES: [(&str, Status, &str); 5] = [
    (LOOP, Status::Done, LISTING),
    (COUNTDOWN, Status::Done, COUNTDOWN_LISTING),
    (GENERATOR, Status::Done, GENERATOR_LISTING),
    ("x = = 1\n", Status::Source, "source Syntax 1\n"),
    ("", Status::Done, ""),
];

const LISTING: &str =
    "code f\n0 - RESUME 0\n2 2 LOAD_CONST 0\n4 2 STORE_FAST i\n6 3 LOAD_FAST i\n8 3 LOAD_FAST n\n10 3 COMPARE_OP <\n12 3 POP_JUMP_IF_FALSE 24\n14 4 LOAD_FAST i\n16 4 LOAD_CONST 1\n18 4 BINARY_OP +\n20 4 STORE_FAST i\n22 - JUMP_BACKWARD 6\n24 5 LOAD_FAST i\n26 5 RETURN_VALUE\n28 - LOAD_CONST None\n30 - RETURN_VALUE\n";

const COUNTDOWN: &str = "def g(n):\n    while n: n -= 1\n    return n\n";

const COUNTDOWN_LISTING: &str =
    "code g\n0 - RESUME 0\n2 2 LOAD_FAST n\n4 2 POP_JUMP_IF_FALSE 16\n6 2 LOAD_FAST n\n8 2 LOAD_CONST 1\n10 2 BINARY_OP -\n12 2 STORE_FAST n\n14 - JUMP_BACKWARD 2\n16 3 LOAD_FAST n\n18 3 RETURN_VALUE\n20 - LOAD_CONST None\n22 - RETURN_VALUE\n";

const GENERATOR: &str = "def f(n):\n    try:\n        yield n\n    finally:\n        return n\n";

const GENERATOR_LISTING: &str =
    "code f\n0 - RETURN_GENERATOR\n2 - POP_TOP\n4 - RESUME 0\n6 2 NOP\n8 3 LOAD_FAST n\n10 3 YIELD_VALUE\n12 - RESUME 1\n14 3 POP_TOP\n16 5 LOAD_FAST n\n18 5 RETURN_VALUE\n20 - JUMP_FORWARD 36\n22 - PUSH_EXC_INFO\n24 5 LOAD_FAST n\n26 - POP_EXCEPT\n28 - SWAP 2\n30 - POP_TOP\n32 5 RETURN_VALUE\n34 - RERAISE\n36 - LOAD_CONST None\n38 - RETURN_VALUE\n";

#[test]
fn a_file_is_listed(rt: HostRuntime) -> Result<(), Fail> {
    for (program, status, want) in FILES {
        let (got, written, reads) = listed(rt.alloc(), program)?;
        assert_eq!(rt; got, status);
        assert_eq!(rt; written.as_slice(), want.as_bytes());
        assert_eq!(rt; reads, 1);
    }
    Ok(())
}
