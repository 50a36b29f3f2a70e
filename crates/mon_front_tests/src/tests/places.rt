//! The lines, marks, depths and handlers of locations.

use super::show::{listing, places};
use std::alloc::Global;
use std::process::Abort;
use std::test::Fail;

/// A text, and what is shown of its first code.
type Row = (&'static [u8], &'static str);

const LINES: [Row; 2] = [
    (
        b"def f(a):\n b = (\n  a +\n  1\n )\n if (\n  b\n ): pass\n return a, \\\n  b\n",
        "0 - RESUME 0; 2 2 LOAD_FAST a; 4 2 LOAD_CONST 1; 6 2 BINARY_OP +; 8 2 STORE_FAST b; 10 6 LOAD_FAST b; 12 6 POP_JUMP_IF_FALSE 16; 14 8 NOP; 16 9 LOAD_FAST a; 18 9 LOAD_FAST b; 20 9 BUILD_TUPLE 2; 22 9 RETURN_VALUE; 24 - LOAD_CONST None; 26 - RETURN_VALUE",
    ),
    (
        b"# nothing\r\n\r\n'a text'\r\ndef f(a): # here\r\n\r\n pass # there\r\n",
        "0 - RESUME 0; 2 6 NOP; 4 - LOAD_CONST None; 6 - RETURN_VALUE",
    ),
];

const PLACES: [Row; 4] = [
    (
        b"def g(n):\n    while n: n -= 1\n    return n\n",
        "0 .s 0 0 -; 2 m. 0 0 -; 4 .. 1 0 -; 6 .. 0 0 -; 8 .. 1 0 -; 10 .. 2 0 -; 12 .. 1 0 -; 14 .s 0 0 -; 16 m. 0 0 -; 18 .. 1 0 -; 20 .. 0 0 -; 22 .. 1 0 -",
    ),
    (
        b"def f(a, b):\n return a and b\n",
        "0 .s 0 0 -; 2 m. 0 0 -; 4 .. 1 0 -; 6 .. 2 0 -; 8 .. 1 0 -; 10 .. 0 0 -; 12 m. 1 0 -; 14 .. 0 0 -; 16 .. 1 0 -",
    ),
    (
        b"def f(a):\n for b in a:\n  try:\n   c(b)\n  except d as e:\n   return e\n return None\n",
        "0 .s 0 0 -; 2 m. 0 0 -; 4 .. 1 0 -; 6 m. 1 0 -; 8 .. 2 0 -; 10 .. 2 0 -; 12 m. 1 0 -; 14 m. 1 0 24/1/0; 16 .. 2 0 24/1/0; 18 .. 3 0 24/1/0; 20 .. 2 0 24/1/0; 22 .. 1 0 -; 24 .. 2 0 -; 26 m. 2 1 -; 28 .. 3 1 -; 30 .. 3 1 -; 32 .. 2 1 -; 34 m. 1 1 52/1/0; 36 .. 2 1 -; 38 .. 2 0 -; 40 .. 2 0 -; 42 .. 2 0 -; 44 m. 1 0 -; 46 .. 1 1 -; 48 .. 1 0 -; 50 .. 1 0 -; 52 .. 2 0 -; 54 .. 2 1 -; 56 .. 2 1 -; 58 .. 2 1 -; 60 .s 1 0 -; 62 .. 1 0 -; 64 m. 0 0 -; 66 .. 1 0 -; 68 .. 0 0 -; 70 .. 1 0 -",
    ),
    (
        b"def f(a, b):\n try:\n  try:\n   a\n  except c:\n   b\n except:\n  pass\n",
        "0 .s 0 0 -; 2 m. 0 0 -; 4 m. 0 0 34/0/0; 6 m. 0 0 12/0/0; 8 .. 1 0 12/0/0; 10 .. 0 0 34/0/0; 12 .. 1 0 34/0/0; 14 m. 1 1 34/0/0; 16 .. 2 1 34/0/0; 18 .. 2 1 34/0/0; 20 .. 1 1 34/0/0; 22 m. 0 1 34/0/0; 24 .. 1 1 34/0/0; 26 .. 0 1 34/0/0; 28 .. 0 0 34/0/0; 30 .. 1 1 34/0/0; 32 .. 0 0 -; 34 .. 1 0 -; 36 m. 1 1 -; 38 m. 0 1 -; 40 .. 0 1 -; 42 .. 0 0 -; 44 .. 0 0 -; 46 .. 1 0 -",
    ),
];

fn check_lines(rt: &impl Abort, alloc: Global, rows: &[Row]) -> Result<(), Fail> {
    for (text, wanted) in rows {
        let out = listing(alloc, text, 0, 0)?;
        assert_eq!(rt; out.as_str(), *wanted, "of {text:?}");
    }
    Ok(())
}

fn check_places(rt: &impl Abort, alloc: Global, rows: &[Row]) -> Result<(), Fail> {
    for (text, wanted) in rows {
        let out = places(alloc, text)?;
        assert_eq!(rt; out.as_str(), *wanted, "of {text:?}");
    }
    Ok(())
}

#[test]
fn a_statement_has_the_line_of_its_first_token(rt: HostRuntime) -> Result<(), Fail> {
    check_lines(&rt, rt.alloc(), LINES.as_slice())
}

#[test]
fn locations_have_marks_depths_and_handlers(rt: HostRuntime) -> Result<(), Fail> {
    check_places(&rt, rt.alloc(), PLACES.as_slice())
}
