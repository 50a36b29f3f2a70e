mod failing;
mod generated;
mod generators;
mod listings;
mod plans;
mod runs;
mod sources;
mod worked;

use mon_main::{Status, host_serial};
use mon_outside::{
    FileStore, MemoryFile, MemorySink, MemoryStore, Sink, SinkFault, StdoutSink, Store, StoreFault,
    write_all,
};
use std::alloc::{AllocError, Global};
use std::fmt::Display;
use std::test::Fail;
use std::{fs, io};

const USAGE: &[u8] = b"usage: run FILE PLAN | replay FILE PLAN | dis FILE | gen NUMBER\n";

const LOOP: &str = "def f(n):\n    i = 0\n    while i < n:\n        i = i + 1\n    return i\n";

const LOOP_PLAN: &str =
    "steps 100\nthread f 3\nbefore\nuse_tool_id 1 cov\nset_events 1 LINE\nregister_callback 1 LINE keep\n";

/// A sum that is too large, and a recursion without end.
const RECURSION: &str =
    "def o():\n    return 9223372036854775807 + 1\ndef r(n):\n    return r(n + 1)\n";

const RECURSION_PLAN: &str =
    "steps 10000\nthread o\nthread r 0\nbefore\nuse_tool_id 1 t\nregister_callback 1 PY_UNWIND keep\nset_events 1 PY_UNWIND\n";

const JOURNAL: &str =
    "journal before use_tool_id 1 cov = None\njournal before set_events 1 LINE = None at 0\njournal before register_callback 1 LINE keep = None at 0\nthread 0 f\n";

fn texts(alloc: Global, words: &[&str]) -> Result<Vec<String>, AllocError> {
    let mut all = Vec::new(alloc);
    for word in words {
        all.push(String::from_str(alloc, word)?)?;
    }
    Ok(all)
}

fn file(alloc: Global, name: &str, contents: &str) -> Result<MemoryFile, AllocError> {
    Ok(MemoryFile {
        name: String::from_str(alloc, name)?,
        contents: Vec::from_slice(alloc, contents.as_bytes())?,
    })
}

fn store(alloc: Global, program: &str, plan: &str) -> Result<MemoryStore, AllocError> {
    let mut files = Vec::new(alloc);
    files.push(file(alloc, "program", program)?)?;
    files.push(file(alloc, "plan", plan)?)?;
    Ok(MemoryStore::new(files, Vec::new(alloc)))
}

fn sink(alloc: Global, failing: &[u64]) -> Result<MemorySink, AllocError> {
    Ok(MemorySink::new(Vec::new(alloc), Vec::from_slice(alloc, failing)?))
}

/// What `replay` answers and writes.
fn replayed(alloc: Global, program: &str, plan: &str) -> Result<(Status, Vec<u8>), AllocError> {
    let words = texts(alloc, &["replay", "program", "plan"])?;
    let mut store = store(alloc, program, plan)?;
    let mut out = sink(alloc, &[])?;
    let status = host_serial(alloc, words.as_slice(), &mut store, &mut out);
    Ok((status, out.bytes))
}

fn plan(alloc: Global, steps: &str, thread: &str) -> Result<String, AllocError> {
    format!(in alloc;
        "steps {steps}\nthread {thread}\nbefore\nuse_tool_id 1 cov\nset_events 1 LINE\nregister_callback 1 LINE keep\n"
    )
}

#[test]
fn other_words_are_no_command(rt: HostRuntime) -> Result<(), Fail> {
    let alloc = rt.alloc();
    let lists: [&[&str]; 20] = [
        &[],
        &["replay"],
        &["replay", "program"],
        &["replay", "program", "plan", "more"],
        &["replay", "", "plan"],
        &["replay", "program", ""],
        &["replay", "-program", "plan"],
        &["replay", "program", "-"],
        &["run", "program", "plan"],
        &["dis"],
        &["dis", "-"],
        &["dis", "program", "plan"],
        &["Replay", "program", "plan"],
        &["gen"],
        &["gen", ""],
        &["gen", "0"],
        &["gen", "01"],
        &["gen", "501"],
        &["gen", "18446744073709551617"],
        &["gen", "1 "],
    ];
    for list in lists {
        let words = texts(alloc, list)?;
        let mut store = store(alloc, LOOP, "")?;
        let mut out = sink(alloc, &[])?;
        let status = host_serial(alloc, words.as_slice(), &mut store, &mut out);
        assert_eq!(rt; status, Status::Usage);
        assert_eq!(rt; status.code(), 2);
        assert_eq!(rt; out.bytes.as_slice(), USAGE);
        assert_eq!(rt; store.reads, 0);
    }
    Ok(())
}

/// Whether a replay by these words ends with the status of a failed read, and writes nothing.
fn fails_to_read(alloc: Global, words: &[&str]) -> Result<bool, AllocError> {
    let words = texts(alloc, words)?;
    let mut store = store(alloc, LOOP, "")?;
    let mut out = sink(alloc, &[])?;
    let status = host_serial(alloc, words.as_slice(), &mut store, &mut out);
    Ok(status == Status::ReadFault && out.bytes.is_empty() && store.faults == 1)
}

#[test]
fn a_name_that_is_absent_writes_nothing(rt: HostRuntime) -> Result<(), Fail> {
    let alloc = rt.alloc();
    assert_eq!(rt; Status::ReadFault.code(), 5);
    assert!(rt; fails_to_read(alloc, &["replay", "absent", "plan"])?);
    assert!(rt; fails_to_read(alloc, &["replay", "program", "absent"])?);
    assert!(rt; fails_to_read(alloc, &["dis", "absent"])?);
    Ok(())
}

/// Whether 10,000 bytes break off so, where the write with the number `failing` fails.
fn breaks_off(alloc: Global, failing: u64, kept: usize, writes: u64) -> Result<bool, AllocError> {
    let text = vec![in alloc; b'x'; 10_000]?;
    let mut out = sink(alloc, &[failing])?;
    let failed = write_all(&mut out, text.as_slice()) == Err(SinkFault::Failed);
    Ok(failed && out.bytes.len() == kept && out.writes == writes && out.faults == 1)
}

#[test]
fn a_failed_piece_ends_the_text(rt: HostRuntime) -> Result<(), Fail> {
    let alloc = rt.alloc();
    assert!(rt; breaks_off(alloc, 0, 2048, 1)?);
    assert!(rt; breaks_off(alloc, 1, 6144, 2)?);
    assert!(rt; breaks_off(alloc, 2, 9096, 3)?);
    Ok(())
}

/// Whether so many bytes are written in so many pieces.
fn goes_in_pieces(alloc: Global, length: usize, writes: u64) -> Result<bool, AllocError> {
    let text = vec![in alloc; b'x'; length]?;
    let mut out = sink(alloc, &[])?;
    let done = write_all(&mut out, text.as_slice()) == Ok(());
    Ok(done && out.bytes.len() == length && out.writes == writes)
}

#[test]
fn a_text_is_written_in_pieces(rt: HostRuntime) -> Result<(), Fail> {
    let alloc = rt.alloc();
    assert!(rt; goes_in_pieces(alloc, 0, 0)?);
    assert!(rt; goes_in_pieces(alloc, 1, 1)?);
    assert!(rt; goes_in_pieces(alloc, 4096, 1)?);
    assert!(rt; goes_in_pieces(alloc, 4097, 2)?);
    assert!(rt; goes_in_pieces(alloc, 8192, 2)?);
    assert!(rt; goes_in_pieces(alloc, 10_000, 3)?);
    Ok(())
}

#[test]
fn files_are_read_up_to_the_limit(rt: HostRuntime) -> Result<(), Fail> {
    let alloc = rt.alloc();
    let long = vec![in alloc; b'x'; 300_000]?;
    fs::write(&rt, "long", long.as_slice())?;
    fs::write(&rt, "short", b"abc")?;
    let mut files = FileStore::new(&rt);
    let mut bytes = Vec::from_slice(alloc, b"before ")?;
    assert_eq!(rt; files.read(alloc, "short", &mut bytes), Ok(()));
    assert_eq!(rt; bytes.as_slice(), b"before abc".as_slice());
    assert_eq!(rt; files.read(alloc, "long", &mut bytes), Ok(()));
    assert_eq!(rt; bytes.len(), 10 + 262_145);
    assert_eq!(rt; files.faults, 0);
    assert_eq!(rt;
        files.read(alloc, "absent", &mut bytes),
        Err(StoreFault::Failed)
    );
    assert_eq!(rt; files.read(alloc, ".", &mut bytes), Err(StoreFault::Failed));
    assert_eq!(rt; bytes.len(), 10 + 262_145);
    assert_eq!(rt; files.faults, 2);
    Ok(())
}

/// Takes three bytes at a write, and nothing once it has taken ten.
#[derive(Drop)]
struct Narrow {
    taken: std::cell::Cell<usize>,
}

impl Print for Narrow {
    fn print<D: Display + Drop>(&self, _value: D) -> io::Result<()> {
        Err(io::Error::from(io::ErrorKind::Unsupported))
    }

    fn println<D: Display + Drop>(&self, _value: D) -> io::Result<()> {
        Err(io::Error::from(io::ErrorKind::Unsupported))
    }

    fn write_all(&self, _bytes: &[u8]) -> io::Result<()> {
        Err(io::Error::from(io::ErrorKind::Unsupported))
    }

    fn write_some(&self, bytes: &[u8]) -> io::Result<usize> {
        let taken = self.taken.get();
        if taken >= 10 {
            return Ok(0);
        }
        let count = bytes.len().min(3);
        self.taken.set(taken.saturating_add(count));
        Ok(count)
    }
}

#[test]
fn output_that_takes_nothing_fails(rt: HostRuntime) -> Result<(), Fail> {
    let narrow = Narrow {
        taken: std::cell::Cell::new(0),
    };
    let mut out = StdoutSink::new(&narrow);
    assert_eq!(rt; out.write(b"abcdefgh"), Ok(()));
    assert_eq!(rt; narrow.taken.get(), 8);
    assert_eq!(rt; out.write(b"abcdefgh"), Err(SinkFault::Failed));
    assert_eq!(rt; out.write(b""), Ok(()));
    assert_eq!(rt; out.faults, 1);
    let mut out = StdoutSink::new(&rt);
    assert_eq!(rt; out.write(b"written\n"), Ok(()));
    assert_eq!(rt; out.faults, 0);
    Ok(())
}

/// Whether a replay ends with this status and writes this text.
fn replays_to(
    alloc: Global,
    program: &str,
    plan: &str,
    status: Status,
    want: &str,
) -> Result<bool, AllocError> {
    let (got, written) = replayed(alloc, program, plan)?;
    Ok(got == status && written.as_slice() == want.as_bytes())
}

/// Whether the loop, under a plan of so many steps, is reported so.
fn loop_ends(alloc: Global, steps: &str, records: &str, end: &str) -> Result<bool, AllocError> {
    let text = plan(alloc, steps, "f 3")?;
    let want = format!(in alloc; "{JOURNAL}{records}{end}")?;
    replays_to(alloc, LOOP, text.as_str(), Status::Done, want.as_str())
}

const EIGHT: &str =
    "rec 1 1 LINE f 2\nrec 3 1 LINE f 3\nrec 7 1 LINE f 4\nrec 12 1 LINE f 3\nrec 16 1 LINE f 4\nrec 21 1 LINE f 3\nrec 25 1 LINE f 4\nrec 30 1 LINE f 3\n";

#[test]
fn a_loop_is_replayed(rt: HostRuntime) -> Result<(), Fail> {
    let alloc = rt.alloc();
    assert!(rt;
        loop_ends(
            alloc,
            "100",
            EIGHT,
            "rec 34 1 LINE f 5\nend 36 returned 3\n"
        )?
    );
    assert!(rt; loop_ends(alloc, "0", "", "end 0 limit\n")?);
    Ok(())
}

#[test]
fn a_loop_stops_at_its_bound(rt: HostRuntime) -> Result<(), Fail> {
    let alloc = rt.alloc();
    assert!(rt; loop_ends(alloc, "34", EIGHT, "end 34 limit\n")?);
    assert!(rt; loop_ends(alloc, "35", EIGHT, "rec 34 1 LINE f 5\nend 35 limit\n")?);
    Ok(())
}

/// Whether a sum that leaves 64 bits is reported so.
fn sum_ends(alloc: Global, end: &str) -> Result<bool, AllocError> {
    let program = "def f(n):\n    x = n + 9223372036854775807\n    return x\n";
    let text = plan(alloc, "100", "f 1")?;
    let want = format!(in alloc; "{JOURNAL}{end}")?;
    replays_to(alloc, program, text.as_str(), Status::Done, want.as_str())
}

#[test]
fn an_exception_is_reported(rt: HostRuntime) -> Result<(), Fail> {
    let end = "rec 1 1 LINE f 2\nend 5 raised OverflowError('integer out of range')\n";
    assert!(rt; sum_ends(rt.alloc(), end)?);
    Ok(())
}

#[test]
fn calls_are_reported_in_the_order_of_the_plan(rt: HostRuntime) -> Result<(), Fail> {
    let plan =
        "steps 0\nthread f 3\nbefore\nuse_tool_id 5 a.b\nregister_callback 5 LINE keep\nset_events 5 LINE\n";
    let want =
        "journal before use_tool_id 5 a.b = None\njournal before register_callback 5 LINE keep = None at 0\njournal before set_events 5 LINE = None at 0\nthread 0 f\nend 0 limit\n";
    assert!(rt; replays_to(rt.alloc(), LOOP, plan, Status::Done, want)?);
    Ok(())
}
