use super::{JOURNAL, LOOP_PLAN, replays_to, sink, texts};
use mon_main::{Status, host_serial};
use mon_outside::{MemoryFile, MemoryStore};
use std::alloc::{AllocError, Global};
use std::test::Fail;

/// The status, the text and the number of reads of a replay of these bytes by a plan that is not there.
fn answer_to(alloc: Global, bytes: &[u8]) -> Result<(Status, Vec<u8>, u64), AllocError> {
    let mut files = Vec::new(alloc);
    files.push(MemoryFile {
        name: String::from_str(alloc, "program")?,
        contents: Vec::from_slice(alloc, bytes)?,
    })?;
    let mut store = MemoryStore::new(files, Vec::new(alloc));
    let words = texts(alloc, &["replay", "program", "absent"])?;
    let mut out = sink(alloc, &[])?;
    let status = host_serial(alloc, words.as_slice(), &mut store, &mut out);
    Ok((status, out.bytes, store.reads))
}

/// Whether a replay of these bytes ends with status 3 and writes this line, with no read but that of FILE.
fn has_fault(alloc: Global, bytes: &[u8], line: &str) -> Result<bool, AllocError> {
    let (status, written, reads) = answer_to(alloc, bytes)?;
    Ok(status == Status::Source && written.as_slice() == line.as_bytes() && reads == 1)
}

#[test]
fn a_lexical_fault_is_said(rt: HostRuntime) -> Result<(), Fail> {
    let alloc = rt.alloc();
    assert_eq!(rt; Status::Source.code(), 3);
    let rows: [(&[u8], &str); 9] = [
        (b"\xff", "source NotUtf8 0\n"),
        (b"x = 1\n\xe2\x82", "source NotUtf8 6\n"),
        (b"$", "source BadChar 1\n"),
        (b"def f():\n    return $\n", "source BadChar 2\n"),
        (b"def f():\n \tpass\n", "source BadIndent 2\n"),
        (
            b"def f():\n    return 9223372036854775808\n",
            "source BadNumber 2\n",
        ),
        (b"x = 'abc\n", "source BadText 1\n"),
        (b"x = 1\n\ny = \"abc\n", "source BadText 3\n"),
        (b"def f(:\n    return 08\n", "source BadNumber 2\n"),
    ];
    for (bytes, line) in rows {
        assert!(rt; has_fault(alloc, bytes, line)?, "of {bytes:?}");
    }
    Ok(())
}

#[test]
fn a_syntax_fault_is_said(rt: HostRuntime) -> Result<(), Fail> {
    let alloc = rt.alloc();
    let rows: [(&[u8], &str); 5] = [
        (b"return (n", "source Syntax 1\n"),
        (b"def f(n):\n    return (n\n", "source Syntax 1\n"),
        (
            b"if __name__ == \"__main__\":\n    pass\n",
            "source Syntax 1\n",
        ),
        (b"x = 1\n\ndef f(n):\n    n n\n", "source Syntax 3\n"),
        (b"# nothing\nimport sys\nx = = 1\n", "source Syntax 2\n"),
    ];
    for (bytes, line) in rows {
        assert!(rt; has_fault(alloc, bytes, line)?, "of {bytes:?}");
    }
    Ok(())
}

#[test]
fn a_fault_of_a_module_is_said(rt: HostRuntime) -> Result<(), Fail> {
    let alloc = rt.alloc();
    let rows: [(&[u8], &str); 8] = [
        (
            b"def f():\n    pass\ndef f():\n    pass\n",
            "source DuplicateName 3\n",
        ),
        (b"x = 1\ny = 2\nx = 3\n", "source DuplicateName 3\n"),
        (b"def f(a, a):\n    return a\n", "source DuplicateName 1\n"),
        (b"def f():\n    break\n", "source Misplaced 2\n"),
        (
            b"def f(n):\n    if n:\n        continue\n",
            "source Misplaced 3\n",
        ),
        (
            b"def f():\n    break\n\ndef f():\n    pass\n",
            "source DuplicateName 4\n",
        ),
        (
            b"def f():\n    yield 1\n    break\n",
            "source Misplaced 3\n",
        ),
        (
            b"x = (((((((((((((((((((((((((((((((((((((((((((((((((((((((((((((((((1,),),),),),),),),),),),),),),),),),),),),),),),),),),),),),),),),),),),),),),),),),),),),),),),),),),),),),),),),),),),),),),),),)\n",
            "source TooLarge 1\n",
        ),
    ];
    for (bytes, line) in rows {
        assert!(rt; has_fault(alloc, bytes, line)?, "of {bytes:?}");
    }
    Ok(())
}

#[test]
fn a_text_has_at_most_262144_bytes(rt: HostRuntime) -> Result<(), Fail> {
    let alloc = rt.alloc();
    for length in [262_145, 262_146, 300_000] {
        let long = vec![in alloc; b'\n'; length]?;
        assert!(rt; has_fault(alloc, long.as_slice(), "source TooLong\n")?);
    }
    let mut whole = vec![in alloc; b'\n'; 262_143]?;
    whole.push(b'$')?;
    assert!(rt; has_fault(alloc, whole.as_slice(), "source BadChar 262144\n")?);
    Ok(())
}

/// The report of the loop, whose statements begin on these lines.
fn loop_report(alloc: Global, lines: [u32; 4]) -> Result<String, AllocError> {
    let [first, test, sum, last] = lines;
    format!(in alloc;
        "{JOURNAL}rec 1 1 LINE f {first}\nrec 3 1 LINE f {test}\nrec 7 1 LINE f {sum}\nrec 12 1 LINE f {test}\nrec 16 1 LINE f {sum}\nrec 21 1 LINE f {test}\nrec 25 1 LINE f {sum}\nrec 30 1 LINE f {test}\nrec 34 1 LINE f {last}\nend 36 returned 3\n"
    )
}

fn loop_is_reported(alloc: Global, program: &str, lines: [u32; 4]) -> Result<bool, AllocError> {
    let want = loop_report(alloc, lines)?;
    replays_to(alloc, program, LOOP_PLAN, Status::Done, want.as_str())
}

#[test]
fn a_loop_is_replayed_in_any_layout(rt: HostRuntime) -> Result<(), Fail> {
    let alloc = rt.alloc();
    let rows: [(&str, [u32; 4]); 7] = [
        (
            "def f(n):\n\ti = 0\n\twhile i < n:\n\t\ti = i + 1\n\treturn i\n",
            [2, 3, 4, 5],
        ),
        (
            "def f(n):\r\n i = 0\r\n while i < n:\r\n   i = i + 1\r\n return i\r\n",
            [2, 3, 4, 5],
        ),
        (
            "def f(n):  # n\n  i=0# i\n  while i<n:# loop\n    i=i+1\n  return i",
            [2, 3, 4, 5],
        ),
        (
            "\n# f\n\ndef f(n):\n\n    i = 0\n  # loop\n    while i < n:\n\n        i = i + 1\n\n    return i\n\n",
            [6, 8, 10, 12],
        ),
        (
            "def f(n):\n    i = \\\n  0\n    while i < \\\nn:\n        i = i + \\\n1\n    return \\\n    i\n",
            [2, 4, 6, 8],
        ),
        (
            "def f(n):\n    i = (0)\n    while (i < n):\n        i = ((i) + (1))\n    return ((i))\n",
            [2, 3, 4, 5],
        ),
        (
            "def f(\n  n\n):\r\n\ti = (\r\n0)\n\twhile (i\n<\nn):\r\n\t\ti = (i +  # up\n\n1)\n\treturn (\\\n\ni)\n",
            [4, 6, 9, 12],
        ),
    ];
    for (program, lines) in rows {
        assert!(rt; loop_is_reported(alloc, program, lines)?, "of {program:?}");
    }
    Ok(())
}
