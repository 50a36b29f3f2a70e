//! The code of statements.

use super::filled;
use super::show::listing;
use std::alloc::Global;
use std::process::Abort;
use std::test::Fail;

/// A statement, and its code as the body of a function with the parameters `a` and `b` from line 2 on.
type Row = (&'static str, &'static str);

const SIMPLE: [Row; 20] = [
    ("'a text'", ""),
    ("('a text')", ""),
    ("a", "2 2 LOAD_FAST a; 4 2 POP_TOP"),
    ("c = a", "2 2 LOAD_FAST a; 4 2 STORE_FAST c"),
    ("c = c", "2 2 LOAD_FAST c; 4 2 STORE_FAST c"),
    ("c = 'a text'", "2 2 LOAD_CONST 'a text'; 4 2 STORE_FAST c"),
    (
        "c, = a",
        "2 2 LOAD_FAST a; 4 2 UNPACK_SEQUENCE 1; 6 2 STORE_FAST c",
    ),
    (
        "a, b = b, a",
        "2 2 LOAD_FAST b; 4 2 LOAD_FAST a; 6 2 BUILD_TUPLE 2; 8 2 UNPACK_SEQUENCE 2; 10 2 STORE_FAST a; 12 2 STORE_FAST b",
    ),
    (
        "a += b",
        "2 2 LOAD_FAST a; 4 2 LOAD_FAST b; 6 2 BINARY_OP +; 8 2 STORE_FAST a",
    ),
    (
        "a -= b",
        "2 2 LOAD_FAST a; 4 2 LOAD_FAST b; 6 2 BINARY_OP -; 8 2 STORE_FAST a",
    ),
    (
        "a *= b",
        "2 2 LOAD_FAST a; 4 2 LOAD_FAST b; 6 2 BINARY_OP *; 8 2 STORE_FAST a",
    ),
    (
        "a //= b",
        "2 2 LOAD_FAST a; 4 2 LOAD_FAST b; 6 2 BINARY_OP //; 8 2 STORE_FAST a",
    ),
    (
        "a %= b",
        "2 2 LOAD_FAST a; 4 2 LOAD_FAST b; 6 2 BINARY_OP %; 8 2 STORE_FAST a",
    ),
    (
        "c += 1",
        "2 2 LOAD_FAST c; 4 2 LOAD_CONST 1; 6 2 BINARY_OP +; 8 2 STORE_FAST c",
    ),
    ("pass", "2 2 NOP"),
    ("return", "2 2 LOAD_CONST None; 4 2 RETURN_VALUE"),
    ("return a", "2 2 LOAD_FAST a; 4 2 RETURN_VALUE"),
    (
        "return a, b",
        "2 2 LOAD_FAST a; 4 2 LOAD_FAST b; 6 2 BUILD_TUPLE 2; 8 2 RETURN_VALUE",
    ),
    ("raise", "2 2 RAISE_VARARGS 0"),
    ("raise a", "2 2 LOAD_FAST a; 4 2 RAISE_VARARGS 1"),
];

const BRANCHES: [Row; 3] = [
    (
        "if a:\n  pass",
        "2 2 LOAD_FAST a; 4 2 POP_JUMP_IF_FALSE 8; 6 3 NOP",
    ),
    (
        "if a:\n  pass\n else:\n  b",
        "2 2 LOAD_FAST a; 4 2 POP_JUMP_IF_FALSE 10; 6 3 NOP; 8 - JUMP_FORWARD 14; 10 5 LOAD_FAST b; 12 5 POP_TOP",
    ),
    (
        "if a:\n  pass\n elif b:\n  pass\n else:\n  pass",
        "2 2 LOAD_FAST a; 4 2 POP_JUMP_IF_FALSE 10; 6 3 NOP; 8 - JUMP_FORWARD 20; 10 4 LOAD_FAST b; 12 4 POP_JUMP_IF_FALSE 18; 14 5 NOP; 16 - JUMP_FORWARD 20; 18 7 NOP",
    ),
];

const LOOPS: [Row; 4] = [
    (
        "while a:\n  pass",
        "2 2 LOAD_FAST a; 4 2 POP_JUMP_IF_FALSE 10; 6 3 NOP; 8 - JUMP_BACKWARD 2",
    ),
    (
        "for c in a:\n  pass",
        "2 2 LOAD_FAST a; 4 2 GET_ITER; 6 2 FOR_ITER; 8 2 POP_JUMP_IF_DONE 16; 10 2 STORE_FAST c; 12 3 NOP; 14 - JUMP_BACKWARD 6; 16 - END_FOR",
    ),
    (
        "for c, d in a:\n  pass",
        "2 2 LOAD_FAST a; 4 2 GET_ITER; 6 2 FOR_ITER; 8 2 POP_JUMP_IF_DONE 20; 10 2 UNPACK_SEQUENCE 2; 12 2 STORE_FAST c; 14 2 STORE_FAST d; 16 3 NOP; 18 - JUMP_BACKWARD 6; 20 - END_FOR",
    ),
    (
        "for c in a, b:\n  pass",
        "2 2 LOAD_FAST a; 4 2 LOAD_FAST b; 6 2 BUILD_TUPLE 2; 8 2 GET_ITER; 10 2 FOR_ITER; 12 2 POP_JUMP_IF_DONE 20; 14 2 STORE_FAST c; 16 3 NOP; 18 - JUMP_BACKWARD 10; 20 - END_FOR",
    ),
];

const TRIES: [Row; 5] = [
    (
        "try:\n  a\n except c:\n  b",
        "2 2 NOP; 4 3 LOAD_FAST a; 6 3 POP_TOP; 8 - JUMP_FORWARD 30; 10 - PUSH_EXC_INFO; 12 4 LOAD_GLOBAL c; 14 4 CHECK_EXC_MATCH; 16 4 POP_JUMP_IF_FALSE 28; 18 4 POP_TOP; 20 5 LOAD_FAST b; 22 5 POP_TOP; 24 - POP_EXCEPT; 26 - JUMP_FORWARD 30; 28 - RERAISE",
    ),
    (
        "try:\n  pass\n except c as e:\n  pass",
        "2 2 NOP; 4 3 NOP; 6 - JUMP_FORWARD 34; 8 - PUSH_EXC_INFO; 10 4 LOAD_GLOBAL c; 12 4 CHECK_EXC_MATCH; 14 4 POP_JUMP_IF_FALSE 32; 16 4 STORE_FAST e; 18 5 NOP; 20 - POP_EXCEPT; 22 - DELETE_FAST e; 24 - JUMP_FORWARD 34; 26 - PUSH_EXC_INFO; 28 - DELETE_FAST e; 30 - RERAISE; 32 - RERAISE",
    ),
    (
        "try:\n  pass\n except:\n  pass",
        "2 2 NOP; 4 3 NOP; 6 - JUMP_FORWARD 18; 8 - PUSH_EXC_INFO; 10 4 POP_TOP; 12 5 NOP; 14 - POP_EXCEPT; 16 - JUMP_FORWARD 18",
    ),
    (
        "try:\n  pass\n except c:\n  pass\n except:\n  pass",
        "2 2 NOP; 4 3 NOP; 6 - JUMP_FORWARD 32; 8 - PUSH_EXC_INFO; 10 4 LOAD_GLOBAL c; 12 4 CHECK_EXC_MATCH; 14 4 POP_JUMP_IF_FALSE 24; 16 4 POP_TOP; 18 5 NOP; 20 - POP_EXCEPT; 22 - JUMP_FORWARD 32; 24 6 POP_TOP; 26 7 NOP; 28 - POP_EXCEPT; 30 - JUMP_FORWARD 32",
    ),
    (
        "try:\n  pass\n except c:\n  pass\n except d:\n  pass",
        "2 2 NOP; 4 3 NOP; 6 - JUMP_FORWARD 40; 8 - PUSH_EXC_INFO; 10 4 LOAD_GLOBAL c; 12 4 CHECK_EXC_MATCH; 14 4 POP_JUMP_IF_FALSE 24; 16 4 POP_TOP; 18 5 NOP; 20 - POP_EXCEPT; 22 - JUMP_FORWARD 40; 24 6 LOAD_GLOBAL d; 26 6 CHECK_EXC_MATCH; 28 6 POP_JUMP_IF_FALSE 38; 30 6 POP_TOP; 32 7 NOP; 34 - POP_EXCEPT; 36 - JUMP_FORWARD 40; 38 - RERAISE",
    ),
];

/// Checks that the statements of these rows have their code.
pub(super) fn check(rt: &impl Abort, alloc: Global, rows: &[Row]) -> Result<(), Fail> {
    for (statement, wanted) in rows {
        let text = filled(alloc, "def f(a, b):\n ", statement, 1, "\n")?;
        let out = listing(alloc, text.as_bytes(), 1, 2)?;
        drop(text);
        assert_eq!(rt; out.as_str(), *wanted, "of {statement:?}");
    }
    Ok(())
}

#[test]
fn statements_without_blocks_have_their_code(rt: HostRuntime) -> Result<(), Fail> {
    check(&rt, rt.alloc(), SIMPLE.as_slice())
}

#[test]
fn branches_jump_over_blocks(rt: HostRuntime) -> Result<(), Fail> {
    check(&rt, rt.alloc(), BRANCHES.as_slice())
}

#[test]
fn loops_jump_back(rt: HostRuntime) -> Result<(), Fail> {
    check(&rt, rt.alloc(), LOOPS.as_slice())
}

#[test]
fn handlers_follow_their_body(rt: HostRuntime) -> Result<(), Fail> {
    check(&rt, rt.alloc(), TRIES.as_slice())
}

const WHOLE: &[u8] = b"def g(n):\n    while n: n -= 1\n    return n\n";

const WHOLE_ROWS: &str =
    "0 - RESUME 0; 2 2 LOAD_FAST n; 4 2 POP_JUMP_IF_FALSE 16; 6 2 LOAD_FAST n; 8 2 LOAD_CONST 1; 10 2 BINARY_OP -; 12 2 STORE_FAST n; 14 - JUMP_BACKWARD 2; 16 3 LOAD_FAST n; 18 3 RETURN_VALUE; 20 - LOAD_CONST None; 22 - RETURN_VALUE";

#[test]
fn a_function_begins_and_ends(rt: HostRuntime) -> Result<(), Fail> {
    let out = listing(rt.alloc(), WHOLE, 0, 0)?;
    assert_eq!(rt; out.as_str(), WHOLE_ROWS);
    Ok(())
}
