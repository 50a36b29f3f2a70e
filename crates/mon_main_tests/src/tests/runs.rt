//! Reports of whole programs.

use super::{LOOP_PLAN, RECURSION, RECURSION_PLAN, plan, replayed, replays_to};
use mon_main::Status;
use std::alloc::{AllocError, Global};
use std::test::Fail;

const JOURNAL: &str =
    "journal before use_tool_id 1 cov = None\njournal before set_events 1 LINE = None at 0\njournal before register_callback 1 LINE keep = None at 0\n";

/// The body of a function without parameters, and the outcome of its thread.
type Body = (&'static str, &'static str);

const BODIES: &[Body] = &[
    ("return -7 // 2, -7 % 2, 7 % -2", " returned (-4, 1, -1)\n"),
    ("return \"abc\"[-1], (1, 2)[0]", " returned ('c', 1)\n"),
    (
        "return (1, 2)[2]",
        " raised IndexError('index out of range')\n",
    ),
    (
        "x = x + 1",
        " raised UnboundLocalError(\"name 'x' is not bound\")\n",
    ),
    (
        "return zz",
        " raised NameError(\"name 'zz' is not defined\")\n",
    ),
    (
        "return True + 1, 1 == True, None is None",
        " returned (2, True, True)\n",
    ),
    (
        "return int(\" -12 \"), max(3, 9, 4), len(range(0, 10, 3))",
        " returned (-12, 9, 4)\n",
    ),
    (
        "return \"a\" * 4097",
        " raised OverflowError('value too large')\n",
    ),
    (
        "raise",
        " raised RuntimeError('no exception to re-raise')\n",
    ),
];

fn body_ends_so(alloc: Global, row: &Body) -> Result<bool, AllocError> {
    let program = format!(in alloc; "def f():\n    {}\n", row.0)?;
    let plan = plan(alloc, "100", "f")?;
    let (status, written) = replayed(alloc, program.as_str(), plan.as_str())?;
    Ok(status == Status::Done && written.as_slice().ends_with(row.1.as_bytes()))
}

#[test]
fn bodies_end_as_the_language_says(rt: HostRuntime) -> Result<(), Fail> {
    for row in BODIES {
        assert!(rt; body_ends_so(rt.alloc(), row)?, "of {:?}", row.0);
    }
    Ok(())
}

/// Calls, loops over a text, a caught exception and a print.
const CALLS: &str =
    "def count(text, size):\n    n = 0\n    for c in text:\n        if c == \"a\":\n            n += 1\n    return n // size\ndef f(n):\n    try:\n        print(count(\"ab\", n))\n    except ZeroDivisionError as e:\n        print(\"caught\", e)\n    return n, count\n";

/// The records of both runs up to the division.
const COUNTED: &str =
    "rec 1 1 LINE f 8\nrec 2 1 LINE f 9\nrec 8 1 LINE count 2\nrec 10 1 LINE count 3\nrec 15 1 LINE count 4\nrec 19 1 LINE count 5\nrec 24 1 LINE count 3\nrec 27 1 LINE count 4\nrec 32 1 LINE count 3\nrec 35 1 LINE count 6\n";

#[test]
fn calls_are_run_and_what_they_print_is_reported(rt: HostRuntime) -> Result<(), Fail> {
    let alloc = rt.alloc();
    let divided = plan(alloc, "200", "f 2")?;
    let want = format!(in alloc;
        "{JOURNAL}thread 0 f\nout '0'\n{COUNTED}rec 42 1 LINE f 12\nend 46 returned (2, <function count>)\n"
    )?;
    assert!(rt; replays_to(alloc, CALLS, divided.as_str(), Status::Done, want.as_str())?);
    let caught = plan(alloc, "200", "f 0")?;
    let want = format!(in alloc;
        "{JOURNAL}thread 0 f\nout 'caught division by zero'\n{COUNTED}rec 41 1 LINE f 10\nrec 45 1 LINE f 11\nrec 53 1 LINE f 12\nend 57 returned (0, <function count>)\n"
    )?;
    assert!(rt; replays_to(alloc, CALLS, caught.as_str(), Status::Done, want.as_str())?);
    Ok(())
}

#[test]
fn a_jump_back_to_the_same_line_gives_no_line(rt: HostRuntime) -> Result<(), Fail> {
    let alloc = rt.alloc();
    let program = "def g(n):\n    while n: n -= 1\n    return n\n";
    let plan = plan(alloc, "100", "g 2")?;
    let want = format!(in alloc;
        "{JOURNAL}thread 0 g\nrec 1 1 LINE g 2\nrec 17 1 LINE g 3\nend 19 returned 0\n"
    )?;
    assert!(rt; replays_to(alloc, program, plan.as_str(), Status::Done, want.as_str())?);
    Ok(())
}

#[test]
fn any_function_of_a_file_may_be_run(rt: HostRuntime) -> Result<(), Fail> {
    let alloc = rt.alloc();
    let program = "def g(n):\n    return 7\ndef f(n):\n    return n\n";
    let want = format!(in alloc; "{JOURNAL}thread 0 f\nrec 1 1 LINE f 4\nend 3 returned 3\n")?;
    assert!(rt; replays_to(alloc, program, LOOP_PLAN, Status::Done, want.as_str())?);
    Ok(())
}

/// The report of the recursion.
fn recursion_report(alloc: Global) -> Result<String, AllocError> {
    let mut text = String::new(alloc);
    text.push_str(RECURSION_HEAD)?;
    for step in 6000..7000u64 {
        write!(
            text,
            "rec {step} 1 PY_UNWIND r 10 RecursionError('too many frames')\n"
        )?;
    }
    text.push_str("end 7000 raised RecursionError('too many frames')\n")?;
    Ok(text)
}

const RECURSION_HEAD: &str = "journal before use_tool_id 1 t = None
journal before register_callback 1 PY_UNWIND keep = None at 0 0
journal before set_events 1 PY_UNWIND = None at 0 0
thread 0 o
rec 4 1 PY_UNWIND o 6 OverflowError('integer out of range')
end 5 raised OverflowError('integer out of range')
thread 1 r
";

#[test]
fn a_thousand_frames_stand_and_no_more(rt: HostRuntime) -> Result<(), Fail> {
    let want = recursion_report(rt.alloc())?;
    assert!(rt;
        replays_to(
            rt.alloc(),
            RECURSION,
            RECURSION_PLAN,
            Status::Done,
            want.as_str()
        )?
    );
    Ok(())
}

#[test]
fn a_plan_of_nothing_reports_nothing(rt: HostRuntime) -> Result<(), Fail> {
    assert!(rt; replays_to(rt.alloc(), "", "steps 5\n", Status::Done, "")?);
    Ok(())
}

/// Functions of `n` with last parts, and what is printed and recorded at 3.
const LAST_PARTS: [(&str, &str); 3] = [
    (
        "def f(n):\n    for i in (1, 2):\n        try:\n            return n // i\n        except ZeroDivisionError:\n            pass\n        finally:\n            print(i)\n",
        "out '1'\nrec 1 1 LINE f 2\nrec 8 1 LINE f 3\nrec 9 1 LINE f 4\nrec 12 1 LINE f 8\nrec 18 1 LINE f 4\nend 19 returned 3\n",
    ),
    (
        "def f(n):\n    try:\n        return n // 0\n    finally:\n        print('last')\n",
        "out 'last'\nrec 1 1 LINE f 2\nrec 2 1 LINE f 3\nrec 7 1 LINE f 5\nend 13 raised ZeroDivisionError('division by zero')\n",
    ),
    (
        "def f(n):\n    while n:\n        try:\n            n -= 1\n            if n == 1: break\n        finally:\n            print(n)\n    try:\n        raise n\n    finally:\n        return n\n",
        "out '2'\nout '1'\nrec 1 1 LINE f 2\nrec 3 1 LINE f 3\nrec 4 1 LINE f 4\nrec 8 1 LINE f 5\nrec 12 1 LINE f 7\nrec 18 1 LINE f 2\nrec 20 1 LINE f 3\nrec 21 1 LINE f 4\nrec 25 1 LINE f 5\nrec 29 1 LINE f 7\nrec 33 1 LINE f 5\nrec 34 1 LINE f 8\nrec 35 1 LINE f 9\nrec 39 1 LINE f 11\nend 44 returned 1\n",
    ),
];

#[test]
fn last_parts_run_however_what_they_cover_ends(rt: HostRuntime) -> Result<(), Fail> {
    for (program, records) in &LAST_PARTS {
        let want = format!(in rt.alloc(); "{JOURNAL}thread 0 f\n{records}")?;
        assert!(rt;
            replays_to(rt.alloc(), program, LOOP_PLAN, Status::Done, want.as_str())?,
            "of {program:?}"
        );
    }
    Ok(())
}
