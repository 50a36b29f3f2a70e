//! What a last part covers, and what runs it.

use super::show::{listing, places};
use super::statements::check;
use super::{compiled, filled, verdict};
use std::alloc::Global;
use std::test::Fail;

/// A statement, and its code as the body of a function with the parameters `a` and `b` from line 2 on.
type Row = (&'static str, &'static str);

const FALL: [Row; 3] = [
    (
        "try:\n  a\n finally:\n  b",
        "2 2 NOP; 4 3 LOAD_FAST a; 6 3 POP_TOP; 8 5 LOAD_FAST b; 10 5 POP_TOP; 12 - JUMP_FORWARD 22; 14 - PUSH_EXC_INFO; 16 5 LOAD_FAST b; 18 5 POP_TOP; 20 - RERAISE",
    ),
    (
        "try:\n  pass\n except:\n  a\n finally:\n  b",
        "2 2 NOP; 4 3 NOP; 6 - JUMP_FORWARD 20; 8 - PUSH_EXC_INFO; 10 4 POP_TOP; 12 5 LOAD_FAST a; 14 5 POP_TOP; 16 - POP_EXCEPT; 18 - JUMP_FORWARD 20; 20 7 LOAD_FAST b; 22 7 POP_TOP; 24 - JUMP_FORWARD 34; 26 - PUSH_EXC_INFO; 28 7 LOAD_FAST b; 30 7 POP_TOP; 32 - RERAISE",
    ),
    (
        "try:\n  raise a\n finally:\n  for c in b:\n   break",
        "2 2 NOP; 4 3 LOAD_FAST a; 6 3 RAISE_VARARGS 1; 8 5 LOAD_FAST b; 10 5 GET_ITER; 12 5 FOR_ITER; 14 5 POP_JUMP_IF_DONE 24; 16 5 STORE_FAST c; 18 - POP_TOP; 20 6 JUMP_FORWARD 26; 22 - JUMP_BACKWARD 12; 24 - END_FOR; 26 - JUMP_FORWARD 50; 28 - PUSH_EXC_INFO; 30 5 LOAD_FAST b; 32 5 GET_ITER; 34 5 FOR_ITER; 36 5 POP_JUMP_IF_DONE 46; 38 5 STORE_FAST c; 40 - POP_TOP; 42 6 JUMP_FORWARD 48; 44 - JUMP_BACKWARD 34; 46 - END_FOR; 48 - RERAISE",
    ),
];

const RETURN: [Row; 5] = [
    (
        "try:\n  return a\n finally:\n  b",
        "2 2 NOP; 4 3 LOAD_FAST a; 6 5 LOAD_FAST b; 8 5 POP_TOP; 10 3 RETURN_VALUE; 12 5 LOAD_FAST b; 14 5 POP_TOP; 16 - JUMP_FORWARD 26; 18 - PUSH_EXC_INFO; 20 5 LOAD_FAST b; 22 5 POP_TOP; 24 - RERAISE",
    ),
    (
        "try:\n  return\n finally:\n  b",
        "2 2 NOP; 4 3 LOAD_CONST None; 6 5 LOAD_FAST b; 8 5 POP_TOP; 10 3 RETURN_VALUE; 12 5 LOAD_FAST b; 14 5 POP_TOP; 16 - JUMP_FORWARD 26; 18 - PUSH_EXC_INFO; 20 5 LOAD_FAST b; 22 5 POP_TOP; 24 - RERAISE",
    ),
    (
        "for c in a:\n  try:\n   return c\n  finally:\n   b",
        "2 2 LOAD_FAST a; 4 2 GET_ITER; 6 2 FOR_ITER; 8 2 POP_JUMP_IF_DONE 42; 10 2 STORE_FAST c; 12 3 NOP; 14 4 LOAD_FAST c; 16 6 LOAD_FAST b; 18 6 POP_TOP; 20 - SWAP 2; 22 - POP_TOP; 24 4 RETURN_VALUE; 26 6 LOAD_FAST b; 28 6 POP_TOP; 30 - JUMP_FORWARD 40; 32 - PUSH_EXC_INFO; 34 6 LOAD_FAST b; 36 6 POP_TOP; 38 - RERAISE; 40 - JUMP_BACKWARD 6; 42 - END_FOR",
    ),
    (
        "try:\n  pass\n except c as e:\n  return e\n finally:\n  b",
        "2 2 NOP; 4 3 NOP; 6 - JUMP_FORWARD 44; 8 - PUSH_EXC_INFO; 10 4 LOAD_GLOBAL c; 12 4 CHECK_EXC_MATCH; 14 4 POP_JUMP_IF_FALSE 42; 16 4 STORE_FAST e; 18 5 LOAD_FAST e; 20 - POP_EXCEPT; 22 - DELETE_FAST e; 24 7 LOAD_FAST b; 26 7 POP_TOP; 28 5 RETURN_VALUE; 30 - POP_EXCEPT; 32 - DELETE_FAST e; 34 - JUMP_FORWARD 44; 36 - PUSH_EXC_INFO; 38 - DELETE_FAST e; 40 - RERAISE; 42 - RERAISE; 44 7 LOAD_FAST b; 46 7 POP_TOP; 48 - JUMP_FORWARD 58; 50 - PUSH_EXC_INFO; 52 7 LOAD_FAST b; 54 7 POP_TOP; 56 - RERAISE",
    ),
    (
        "try:\n  try:\n   return a\n  finally:\n   b\n finally:\n  c = b",
        "2 2 NOP; 4 3 NOP; 6 4 LOAD_FAST a; 8 6 LOAD_FAST b; 10 6 POP_TOP; 12 8 LOAD_FAST b; 14 8 STORE_FAST c; 16 4 RETURN_VALUE; 18 6 LOAD_FAST b; 20 6 POP_TOP; 22 - JUMP_FORWARD 32; 24 - PUSH_EXC_INFO; 26 6 LOAD_FAST b; 28 6 POP_TOP; 30 - RERAISE; 32 8 LOAD_FAST b; 34 8 STORE_FAST c; 36 - JUMP_FORWARD 46; 38 - PUSH_EXC_INFO; 40 8 LOAD_FAST b; 42 8 STORE_FAST c; 44 - RERAISE",
    ),
];

const BREAK: [Row; 5] = [
    (
        "while a:\n  try:\n   break\n  finally:\n   b",
        "2 2 LOAD_FAST a; 4 2 POP_JUMP_IF_FALSE 30; 6 3 NOP; 8 6 LOAD_FAST b; 10 6 POP_TOP; 12 4 JUMP_FORWARD 30; 14 6 LOAD_FAST b; 16 6 POP_TOP; 18 - JUMP_FORWARD 28; 20 - PUSH_EXC_INFO; 22 6 LOAD_FAST b; 24 6 POP_TOP; 26 - RERAISE; 28 - JUMP_BACKWARD 2",
    ),
    (
        "for c in a:\n  try:\n   break\n  finally:\n   b",
        "2 2 LOAD_FAST a; 4 2 GET_ITER; 6 2 FOR_ITER; 8 2 POP_JUMP_IF_DONE 38; 10 2 STORE_FAST c; 12 3 NOP; 14 6 LOAD_FAST b; 16 6 POP_TOP; 18 - POP_TOP; 20 4 JUMP_FORWARD 40; 22 6 LOAD_FAST b; 24 6 POP_TOP; 26 - JUMP_FORWARD 36; 28 - PUSH_EXC_INFO; 30 6 LOAD_FAST b; 32 6 POP_TOP; 34 - RERAISE; 36 - JUMP_BACKWARD 6; 38 - END_FOR",
    ),
    (
        "while a:\n  try:\n   continue\n  finally:\n   b",
        "2 2 LOAD_FAST a; 4 2 POP_JUMP_IF_FALSE 30; 6 3 NOP; 8 6 LOAD_FAST b; 10 6 POP_TOP; 12 4 JUMP_BACKWARD 2; 14 6 LOAD_FAST b; 16 6 POP_TOP; 18 - JUMP_FORWARD 28; 20 - PUSH_EXC_INFO; 22 6 LOAD_FAST b; 24 6 POP_TOP; 26 - RERAISE; 28 - JUMP_BACKWARD 2",
    ),
    (
        "for c in a:\n  try:\n   try:\n    continue\n   except:\n    break\n  finally:\n   b",
        "2 2 LOAD_FAST a; 4 2 GET_ITER; 6 2 FOR_ITER; 8 2 POP_JUMP_IF_DONE 58; 10 2 STORE_FAST c; 12 3 NOP; 14 4 NOP; 16 9 LOAD_FAST b; 18 9 POP_TOP; 20 5 JUMP_BACKWARD 6; 22 - JUMP_FORWARD 42; 24 - PUSH_EXC_INFO; 26 6 POP_TOP; 28 - POP_EXCEPT; 30 9 LOAD_FAST b; 32 9 POP_TOP; 34 - POP_TOP; 36 7 JUMP_FORWARD 60; 38 - POP_EXCEPT; 40 - JUMP_FORWARD 42; 42 9 LOAD_FAST b; 44 9 POP_TOP; 46 - JUMP_FORWARD 56; 48 - PUSH_EXC_INFO; 50 9 LOAD_FAST b; 52 9 POP_TOP; 54 - RERAISE; 56 - JUMP_BACKWARD 6; 58 - END_FOR",
    ),
    (
        "while a:\n  try:\n   try:\n    break\n   finally:\n    a\n  finally:\n   b",
        "2 2 LOAD_FAST a; 4 2 POP_JUMP_IF_FALSE 50; 6 3 NOP; 8 4 NOP; 10 7 LOAD_FAST a; 12 7 POP_TOP; 14 9 LOAD_FAST b; 16 9 POP_TOP; 18 5 JUMP_FORWARD 50; 20 7 LOAD_FAST a; 22 7 POP_TOP; 24 - JUMP_FORWARD 34; 26 - PUSH_EXC_INFO; 28 7 LOAD_FAST a; 30 7 POP_TOP; 32 - RERAISE; 34 9 LOAD_FAST b; 36 9 POP_TOP; 38 - JUMP_FORWARD 48; 40 - PUSH_EXC_INFO; 42 9 LOAD_FAST b; 44 9 POP_TOP; 46 - RERAISE; 48 - JUMP_BACKWARD 2",
    ),
];

const INSIDE: [Row; 4] = [
    (
        "try:\n  a\n finally:\n  return b",
        "2 2 NOP; 4 3 LOAD_FAST a; 6 3 POP_TOP; 8 5 LOAD_FAST b; 10 5 RETURN_VALUE; 12 - JUMP_FORWARD 28; 14 - PUSH_EXC_INFO; 16 5 LOAD_FAST b; 18 - POP_EXCEPT; 20 - SWAP 2; 22 - POP_TOP; 24 5 RETURN_VALUE; 26 - RERAISE",
    ),
    (
        "while a:\n  try:\n   return a\n  finally:\n   break",
        "2 2 LOAD_FAST a; 4 2 POP_JUMP_IF_FALSE 32; 6 3 NOP; 8 4 LOAD_FAST a; 10 - POP_TOP; 12 6 JUMP_FORWARD 32; 14 4 RETURN_VALUE; 16 6 JUMP_FORWARD 32; 18 - JUMP_FORWARD 30; 20 - PUSH_EXC_INFO; 22 - POP_EXCEPT; 24 - POP_TOP; 26 6 JUMP_FORWARD 32; 28 - RERAISE; 30 - JUMP_BACKWARD 2",
    ),
    (
        "for c in a:\n  try:\n   b\n  finally:\n   continue",
        "2 2 LOAD_FAST a; 4 2 GET_ITER; 6 2 FOR_ITER; 8 2 POP_JUMP_IF_DONE 34; 10 2 STORE_FAST c; 12 3 NOP; 14 4 LOAD_FAST b; 16 4 POP_TOP; 18 6 JUMP_BACKWARD 6; 20 - JUMP_FORWARD 32; 22 - PUSH_EXC_INFO; 24 - POP_EXCEPT; 26 - POP_TOP; 28 6 JUMP_BACKWARD 6; 30 - RERAISE; 32 - JUMP_BACKWARD 6; 34 - END_FOR",
    ),
    (
        "try:\n  return a\n finally:\n  try:\n   return b\n  finally:\n   pass",
        "2 2 NOP; 4 3 LOAD_FAST a; 6 5 NOP; 8 6 LOAD_FAST b; 10 8 NOP; 12 - SWAP 2; 14 - POP_TOP; 16 6 RETURN_VALUE; 18 8 NOP; 20 - JUMP_FORWARD 28; 22 - PUSH_EXC_INFO; 24 8 NOP; 26 - RERAISE; 28 3 RETURN_VALUE; 30 5 NOP; 32 6 LOAD_FAST b; 34 8 NOP; 36 6 RETURN_VALUE; 38 8 NOP; 40 - JUMP_FORWARD 48; 42 - PUSH_EXC_INFO; 44 8 NOP; 46 - RERAISE; 48 - JUMP_FORWARD 78; 50 - PUSH_EXC_INFO; 52 5 NOP; 54 6 LOAD_FAST b; 56 8 NOP; 58 - POP_EXCEPT; 60 - SWAP 2; 62 - POP_TOP; 64 6 RETURN_VALUE; 66 8 NOP; 68 - JUMP_FORWARD 76; 70 - PUSH_EXC_INFO; 72 8 NOP; 74 - RERAISE; 76 - RERAISE",
    ),
];

const NESTED: [Row; 2] = [
    (
        "try:\n  a\n finally:\n  try:\n   b\n  finally:\n   pass",
        "2 2 NOP; 4 3 LOAD_FAST a; 6 3 POP_TOP; 8 5 NOP; 10 6 LOAD_FAST b; 12 6 POP_TOP; 14 8 NOP; 16 - JUMP_FORWARD 24; 18 - PUSH_EXC_INFO; 20 8 NOP; 22 - RERAISE; 24 - JUMP_FORWARD 46; 26 - PUSH_EXC_INFO; 28 5 NOP; 30 6 LOAD_FAST b; 32 6 POP_TOP; 34 8 NOP; 36 - JUMP_FORWARD 44; 38 - PUSH_EXC_INFO; 40 8 NOP; 42 - RERAISE; 44 - RERAISE",
    ),
    (
        "try:\n  a\n finally:\n  try:\n   b\n  except c as e:\n   return e",
        "2 2 NOP; 4 3 LOAD_FAST a; 6 3 POP_TOP; 8 5 NOP; 10 6 LOAD_FAST b; 12 6 POP_TOP; 14 - JUMP_FORWARD 48; 16 - PUSH_EXC_INFO; 18 7 LOAD_GLOBAL c; 20 7 CHECK_EXC_MATCH; 22 7 POP_JUMP_IF_FALSE 46; 24 7 STORE_FAST e; 26 8 LOAD_FAST e; 28 - POP_EXCEPT; 30 - DELETE_FAST e; 32 8 RETURN_VALUE; 34 - POP_EXCEPT; 36 - DELETE_FAST e; 38 - JUMP_FORWARD 48; 40 - PUSH_EXC_INFO; 42 - DELETE_FAST e; 44 - RERAISE; 46 - RERAISE; 48 - JUMP_FORWARD 100; 50 - PUSH_EXC_INFO; 52 5 NOP; 54 6 LOAD_FAST b; 56 6 POP_TOP; 58 - JUMP_FORWARD 98; 60 - PUSH_EXC_INFO; 62 7 LOAD_GLOBAL c; 64 7 CHECK_EXC_MATCH; 66 7 POP_JUMP_IF_FALSE 96; 68 7 STORE_FAST e; 70 8 LOAD_FAST e; 72 - POP_EXCEPT; 74 - DELETE_FAST e; 76 - POP_EXCEPT; 78 - SWAP 2; 80 - POP_TOP; 82 8 RETURN_VALUE; 84 - POP_EXCEPT; 86 - DELETE_FAST e; 88 - JUMP_FORWARD 98; 90 - PUSH_EXC_INFO; 92 - DELETE_FAST e; 94 - RERAISE; 96 - RERAISE; 98 - RERAISE",
    ),
];

/// The same of a generator function.
const YIELDS: [Row; 9] = [
    (
        "yield",
        "6 2 LOAD_CONST None; 8 2 YIELD_VALUE; 10 - RESUME 1; 12 2 POP_TOP",
    ),
    (
        "c = yield a",
        "6 2 LOAD_FAST a; 8 2 YIELD_VALUE; 10 - RESUME 1; 12 2 STORE_FAST c",
    ),
    (
        "return (yield), (yield b)",
        "6 2 LOAD_CONST None; 8 2 YIELD_VALUE; 10 - RESUME 1; 12 2 LOAD_FAST b; 14 2 YIELD_VALUE; 16 - RESUME 1; 18 2 BUILD_TUPLE 2; 20 2 RETURN_VALUE",
    ),
    (
        "try:\n  yield a\n finally:\n  b",
        "6 2 NOP; 8 3 LOAD_FAST a; 10 3 YIELD_VALUE; 12 - RESUME 1; 14 3 POP_TOP; 16 5 LOAD_FAST b; 18 5 POP_TOP; 20 - JUMP_FORWARD 30; 22 - PUSH_EXC_INFO; 24 5 LOAD_FAST b; 26 5 POP_TOP; 28 - RERAISE",
    ),
    (
        "try:\n  a\n finally:\n  yield b",
        "6 2 NOP; 8 3 LOAD_FAST a; 10 3 POP_TOP; 12 5 LOAD_FAST b; 14 5 YIELD_VALUE; 16 - RESUME 1; 18 5 POP_TOP; 20 - JUMP_FORWARD 34; 22 - PUSH_EXC_INFO; 24 5 LOAD_FAST b; 26 5 YIELD_VALUE; 28 - RESUME 1; 30 5 POP_TOP; 32 - RERAISE",
    ),
    (
        "try:\n  return a\n finally:\n  yield",
        "6 2 NOP; 8 3 LOAD_FAST a; 10 5 LOAD_CONST None; 12 5 YIELD_VALUE; 14 - RESUME 1; 16 5 POP_TOP; 18 3 RETURN_VALUE; 20 5 LOAD_CONST None; 22 5 YIELD_VALUE; 24 - RESUME 1; 26 5 POP_TOP; 28 - JUMP_FORWARD 42; 30 - PUSH_EXC_INFO; 32 5 LOAD_CONST None; 34 5 YIELD_VALUE; 36 - RESUME 1; 38 5 POP_TOP; 40 - RERAISE",
    ),
    (
        "try:\n  a\n except (yield b):\n  pass\n finally:\n  pass",
        "6 2 NOP; 8 3 LOAD_FAST a; 10 3 POP_TOP; 12 - JUMP_FORWARD 36; 14 - PUSH_EXC_INFO; 16 4 LOAD_FAST b; 18 4 YIELD_VALUE; 20 - RESUME 1; 22 4 CHECK_EXC_MATCH; 24 4 POP_JUMP_IF_FALSE 34; 26 4 POP_TOP; 28 5 NOP; 30 - POP_EXCEPT; 32 - JUMP_FORWARD 36; 34 - RERAISE; 36 7 NOP; 38 - JUMP_FORWARD 46; 40 - PUSH_EXC_INFO; 42 7 NOP; 44 - RERAISE",
    ),
    (
        "try:\n  a\n except:\n  yield b\n finally:\n  pass",
        "6 2 NOP; 8 3 LOAD_FAST a; 10 3 POP_TOP; 12 - JUMP_FORWARD 30; 14 - PUSH_EXC_INFO; 16 4 POP_TOP; 18 5 LOAD_FAST b; 20 5 YIELD_VALUE; 22 - RESUME 1; 24 5 POP_TOP; 26 - POP_EXCEPT; 28 - JUMP_FORWARD 30; 30 7 NOP; 32 - JUMP_FORWARD 40; 34 - PUSH_EXC_INFO; 36 7 NOP; 38 - RERAISE",
    ),
    (
        "for c in (yield a):\n  try:\n   continue\n  finally:\n   yield c",
        "6 2 LOAD_FAST a; 8 2 YIELD_VALUE; 10 - RESUME 1; 12 2 GET_ITER; 14 2 FOR_ITER; 16 2 POP_JUMP_IF_DONE 56; 18 2 STORE_FAST c; 20 3 NOP; 22 6 LOAD_FAST c; 24 6 YIELD_VALUE; 26 - RESUME 1; 28 6 POP_TOP; 30 4 JUMP_BACKWARD 14; 32 6 LOAD_FAST c; 34 6 YIELD_VALUE; 36 - RESUME 1; 38 6 POP_TOP; 40 - JUMP_FORWARD 54; 42 - PUSH_EXC_INFO; 44 6 LOAD_FAST c; 46 6 YIELD_VALUE; 48 - RESUME 1; 50 6 POP_TOP; 52 - RERAISE; 54 - JUMP_BACKWARD 14; 56 - END_FOR",
    ),
];

#[test]
fn a_last_part_runs_behind_what_it_covers(rt: HostRuntime) -> Result<(), Fail> {
    check(&rt, rt.alloc(), FALL.as_slice())
}

#[test]
fn a_last_part_runs_under_a_returned_value(rt: HostRuntime) -> Result<(), Fail> {
    check(&rt, rt.alloc(), RETURN.as_slice())
}

#[test]
fn a_last_part_runs_before_a_jump(rt: HostRuntime) -> Result<(), Fail> {
    check(&rt, rt.alloc(), BREAK.as_slice())
}

#[test]
fn a_last_part_is_left_itself(rt: HostRuntime) -> Result<(), Fail> {
    check(&rt, rt.alloc(), INSIDE.as_slice())
}

#[test]
fn a_last_part_stands_inside_another(rt: HostRuntime) -> Result<(), Fail> {
    check(&rt, rt.alloc(), NESTED.as_slice())
}

#[test]
fn a_yield_stands_in_each_part(rt: HostRuntime) -> Result<(), Fail> {
    for (statement, wanted) in &YIELDS {
        let text = filled(rt.alloc(), "def f(a, b):\n ", statement, 1, "\n")?;
        let out = listing(rt.alloc(), text.as_bytes(), 3, 2)?;
        drop(text);
        assert_eq!(rt; out.as_str(), *wanted, "of {statement:?}");
    }
    Ok(())
}

const GENERATOR: &[u8] = b"def f():\n yield\n";

const GENERATOR_ROWS: &str =
    "0 - RETURN_GENERATOR; 2 - POP_TOP; 4 - RESUME 0; 6 2 LOAD_CONST None; 8 2 YIELD_VALUE; 10 - RESUME 1; 12 2 POP_TOP; 14 - LOAD_CONST None; 16 - RETURN_VALUE";

#[test]
fn a_generator_function_begins_and_ends(rt: HostRuntime) -> Result<(), Fail> {
    let out = listing(rt.alloc(), GENERATOR, 0, 0)?;
    assert_eq!(rt; out.as_str(), GENERATOR_ROWS);
    Ok(())
}

const RETURNED: &[u8] = b"def f(a):\n for b in a:\n  try:\n   return b\n  finally:\n   c\n";

const RETURNED_PLACES: &str =
    "0 .s 0 0 -; 2 m. 0 0 -; 4 .. 1 0 -; 6 m. 1 0 -; 8 .. 2 0 -; 10 .. 2 0 -; 12 m. 1 0 -; 14 m. 1 0 32/1/0; 16 m. 2 0 -; 18 .. 3 0 -; 20 .. 2 0 -; 22 .. 2 0 -; 24 m. 1 0 -; 26 m. 1 0 -; 28 .. 2 0 -; 30 .. 1 0 -; 32 .. 2 0 -; 34 m. 2 1 -; 36 .. 3 1 -; 38 .. 2 1 -; 40 .s 1 0 -; 42 .. 1 0 -; 44 .. 0 0 -; 46 .. 1 0 -";

#[test]
fn a_last_part_has_no_handler_of_its_own(rt: HostRuntime) -> Result<(), Fail> {
    let out = places(rt.alloc(), RETURNED)?;
    assert_eq!(rt; out.as_str(), RETURNED_PLACES);
    Ok(())
}

fn add_line(text: &mut String, indent: usize, line: &str) -> Result<(), Fail> {
    for _column in 0..indent {
        text.push_str(" ")?;
    }
    text.push_str(line)?;
    Ok(())
}

/// So many `try` inside one another, each in the last part of the one before.
fn nested_in_parts(alloc: Global, count: usize) -> Result<String, Fail> {
    let mut text = String::new(alloc);
    text.push_str("def f():\n")?;
    for indent in 0..count {
        add_line(&mut text, indent, " try: pass\n")?;
        add_line(&mut text, indent, " finally:\n")?;
    }
    add_line(&mut text, count, " pass\n")?;
    Ok(text)
}

/// So many `try` inside one another, each in the body of the one before.
fn nested_in_bodies(alloc: Global, count: usize) -> Result<String, Fail> {
    let mut text = String::new(alloc);
    text.push_str("def f():\n")?;
    for indent in 0..count {
        add_line(&mut text, indent, " try:\n")?;
    }
    add_line(&mut text, count, " pass\n")?;
    for indent in (0..count).rev() {
        add_line(&mut text, indent, " finally: pass\n")?;
    }
    Ok(text)
}

/// How many `try` are nested in last parts, and what is answered then.
const DEPTHS: [(usize, &str); 4] = [
    (1, "built"),
    (13, "built"),
    (14, "TooManyLocations"),
    (60, "TooManyLocations"),
];

#[test]
fn last_parts_double_at_each_level(rt: HostRuntime) -> Result<(), Fail> {
    for (count, wanted) in &DEPTHS {
        let text = nested_in_parts(rt.alloc(), *count)?;
        let out = verdict(rt.alloc(), text.as_bytes())?;
        drop(text);
        assert_eq!(rt; out.as_str(), *wanted, "of {count}");
    }
    let text = nested_in_parts(rt.alloc(), 13)?;
    let (_, bases) = compiled(rt.alloc(), text.as_bytes())?;
    assert_eq!(rt; bases.len(), 49_150);
    Ok(())
}

#[test]
fn bodies_nest_60_deep(rt: HostRuntime) -> Result<(), Fail> {
    let text = nested_in_bodies(rt.alloc(), 60)?;
    let (_, bases) = compiled(rt.alloc(), text.as_bytes())?;
    assert_eq!(rt; bases.len(), 364);
    Ok(())
}
