//! Reads and writes that fail, each in turn.

use super::{LOOP, LOOP_PLAN, RECURSION, RECURSION_PLAN, sink, store, texts};
use mon_main::{Status, host_serial};
use std::alloc::{AllocError, Global};
use std::test::Fail;

/// Words, with what `program` and `plan` stand for.
#[derive(Clone, Copy)]
struct Request {
    words: &'static [&'static str],
    program: &'static str,
    plan: &'static str,
}

/// One of each command, one with a report of many pieces, one with a fault of the file, and one of the plan.
const REQUESTS: [Request; 7] = [
    Request {
        words: &[],
        program: "",
        plan: "",
    },
    Request {
        words: &["replay", "program", "plan"],
        program: LOOP,
        plan: LOOP_PLAN,
    },
    Request {
        words: &["replay", "program", "plan"],
        program: RECURSION,
        plan: RECURSION_PLAN,
    },
    Request {
        words: &["replay", "program", "plan"],
        program: "def f(\n",
        plan: LOOP_PLAN,
    },
    Request {
        words: &["replay", "program", "plan"],
        program: LOOP,
        plan: "steps\n",
    },
    Request {
        words: &["dis", "program"],
        program: LOOP,
        plan: "",
    },
    Request {
        words: &["gen", "3"],
        program: "",
        plan: "",
    },
];

/// A status, what was written, and how often it was read and written.
#[derive(Drop)]
struct Ending {
    status: Status,
    bytes: Vec<u8>,
    reads: u64,
    writes: u64,
}

/// How a request ends where the reads and the writes of these numbers fail.
fn end_of(
    alloc: Global,
    request: &Request,
    reads: &[u64],
    writes: &[u64],
) -> Result<Ending, AllocError> {
    let words = texts(alloc, request.words)?;
    let mut store = store(alloc, request.program, request.plan)?;
    store.failing.extend_from_slice(reads)?;
    let mut out = sink(alloc, writes)?;
    let status = host_serial(alloc, words.as_slice(), &mut store, &mut out);
    Ok(Ending {
        status,
        bytes: out.bytes,
        reads: store.reads,
        writes: out.writes,
    })
}

/// Whether a failed read is the last call and its status the answer, for each read that the request makes.
fn fails_by_reads(alloc: Global, request: &Request, whole: &Ending) -> Result<bool, AllocError> {
    for number in 0..whole.reads {
        let cut = end_of(alloc, request, &[number], &[])?;
        let is_last = cut.reads == number + 1 && cut.writes == 0;
        if cut.status != Status::ReadFault || !is_last {
            return Ok(false);
        }
    }
    Ok(true)
}

/// Whether a failed write is the last call and its status the answer, and what was written begins the whole text, for each
/// write that the request makes.
fn fails_by_writes(alloc: Global, request: &Request, whole: &Ending) -> Result<bool, AllocError> {
    for number in 0..whole.writes {
        let cut = end_of(alloc, request, &[], &[number])?;
        let is_last = cut.reads == whole.reads && cut.writes == number + 1;
        let is_part = whole.bytes.as_slice().starts_with(cut.bytes.as_slice());
        if cut.status != Status::WriteFault || !is_last || !is_part {
            return Ok(false);
        }
    }
    Ok(true)
}

#[test]
fn a_failed_read_is_the_last_call(rt: HostRuntime) -> Result<(), Fail> {
    let alloc = rt.alloc();
    for request in REQUESTS {
        let whole = end_of(alloc, &request, &[], &[])?;
        assert!(rt;
            fails_by_reads(alloc, &request, &whole)?,
            "of {:?}",
            request.words
        );
    }
    Ok(())
}

#[test]
fn a_failed_write_is_the_last_call(rt: HostRuntime) -> Result<(), Fail> {
    let alloc = rt.alloc();
    for request in REQUESTS {
        let whole = end_of(alloc, &request, &[], &[])?;
        assert!(rt;
            fails_by_writes(alloc, &request, &whole)?,
            "of {:?}",
            request.words
        );
    }
    Ok(())
}

#[test]
fn a_failed_second_write_leaves_one_piece_and_a_part(rt: HostRuntime) -> Result<(), Fail> {
    let alloc = rt.alloc();
    let request = Request {
        words: &["replay", "program", "plan"],
        program: RECURSION,
        plan: RECURSION_PLAN,
    };
    let cut = end_of(alloc, &request, &[], &[1])?;
    let (_, whole) = super::replayed(alloc, RECURSION, RECURSION_PLAN)?;
    assert_eq!(rt; cut.status, Status::WriteFault);
    assert_eq!(rt; cut.status.code(), 6);
    assert!(rt; whole.as_slice().get(..6144) == Some(cut.bytes.as_slice()));
    Ok(())
}
