//! What `break`, `continue` and `return` leave.

use super::statements::check;
use std::test::Fail;

/// A statement, and its code as the body of a function with the parameters `a` and `b` from line 2 on.
type Row = (&'static str, &'static str);

const WHILE: [Row; 3] = [
    (
        "while a:\n  break",
        "2 2 LOAD_FAST a; 4 2 POP_JUMP_IF_FALSE 10; 6 3 JUMP_FORWARD 10; 8 - JUMP_BACKWARD 2",
    ),
    (
        "while a:\n  continue",
        "2 2 LOAD_FAST a; 4 2 POP_JUMP_IF_FALSE 10; 6 3 JUMP_BACKWARD 2; 8 - JUMP_BACKWARD 2",
    ),
    (
        "while a:\n  return b",
        "2 2 LOAD_FAST a; 4 2 POP_JUMP_IF_FALSE 12; 6 3 LOAD_FAST b; 8 3 RETURN_VALUE; 10 - JUMP_BACKWARD 2",
    ),
];

const FOR: [Row; 5] = [
    (
        "for c in a:\n  break",
        "2 2 LOAD_FAST a; 4 2 GET_ITER; 6 2 FOR_ITER; 8 2 POP_JUMP_IF_DONE 18; 10 2 STORE_FAST c; 12 - POP_TOP; 14 3 JUMP_FORWARD 20; 16 - JUMP_BACKWARD 6; 18 - END_FOR",
    ),
    (
        "for c in a:\n  continue",
        "2 2 LOAD_FAST a; 4 2 GET_ITER; 6 2 FOR_ITER; 8 2 POP_JUMP_IF_DONE 16; 10 2 STORE_FAST c; 12 3 JUMP_BACKWARD 6; 14 - JUMP_BACKWARD 6; 16 - END_FOR",
    ),
    (
        "for c in a:\n  return b",
        "2 2 LOAD_FAST a; 4 2 GET_ITER; 6 2 FOR_ITER; 8 2 POP_JUMP_IF_DONE 22; 10 2 STORE_FAST c; 12 3 LOAD_FAST b; 14 - SWAP 2; 16 - POP_TOP; 18 3 RETURN_VALUE; 20 - JUMP_BACKWARD 6; 22 - END_FOR",
    ),
    (
        "for c in a:\n  for d in b:\n   return d",
        "2 2 LOAD_FAST a; 4 2 GET_ITER; 6 2 FOR_ITER; 8 2 POP_JUMP_IF_DONE 40; 10 2 STORE_FAST c; 12 3 LOAD_FAST b; 14 3 GET_ITER; 16 3 FOR_ITER; 18 3 POP_JUMP_IF_DONE 36; 20 3 STORE_FAST d; 22 4 LOAD_FAST d; 24 - SWAP 2; 26 - POP_TOP; 28 - SWAP 2; 30 - POP_TOP; 32 4 RETURN_VALUE; 34 - JUMP_BACKWARD 16; 36 - END_FOR; 38 - JUMP_BACKWARD 6; 40 - END_FOR",
    ),
    (
        "for c in a:\n  while b:\n   break",
        "2 2 LOAD_FAST a; 4 2 GET_ITER; 6 2 FOR_ITER; 8 2 POP_JUMP_IF_DONE 22; 10 2 STORE_FAST c; 12 3 LOAD_FAST b; 14 3 POP_JUMP_IF_FALSE 20; 16 4 JUMP_FORWARD 20; 18 - JUMP_BACKWARD 12; 20 - JUMP_BACKWARD 6; 22 - END_FOR",
    ),
];

const TRY: [Row; 3] = [
    (
        "try:\n  return a\n except:\n  pass",
        "2 2 NOP; 4 3 LOAD_FAST a; 6 3 RETURN_VALUE; 8 - JUMP_FORWARD 20; 10 - PUSH_EXC_INFO; 12 4 POP_TOP; 14 5 NOP; 16 - POP_EXCEPT; 18 - JUMP_FORWARD 20",
    ),
    (
        "while a:\n  try:\n   break\n  except:\n   pass",
        "2 2 LOAD_FAST a; 4 2 POP_JUMP_IF_FALSE 24; 6 3 NOP; 8 4 JUMP_FORWARD 24; 10 - JUMP_FORWARD 22; 12 - PUSH_EXC_INFO; 14 5 POP_TOP; 16 6 NOP; 18 - POP_EXCEPT; 20 - JUMP_FORWARD 22; 22 - JUMP_BACKWARD 2",
    ),
    (
        "while a:\n  try:\n   continue\n  except:\n   pass",
        "2 2 LOAD_FAST a; 4 2 POP_JUMP_IF_FALSE 24; 6 3 NOP; 8 4 JUMP_BACKWARD 2; 10 - JUMP_FORWARD 22; 12 - PUSH_EXC_INFO; 14 5 POP_TOP; 16 6 NOP; 18 - POP_EXCEPT; 20 - JUMP_FORWARD 22; 22 - JUMP_BACKWARD 2",
    ),
];

const EXCEPT: [Row; 3] = [
    (
        "try:\n  pass\n except:\n  return a",
        "2 2 NOP; 4 3 NOP; 6 - JUMP_FORWARD 22; 8 - PUSH_EXC_INFO; 10 4 POP_TOP; 12 5 LOAD_FAST a; 14 - POP_EXCEPT; 16 5 RETURN_VALUE; 18 - POP_EXCEPT; 20 - JUMP_FORWARD 22",
    ),
    (
        "while a:\n  try:\n   pass\n  except:\n   break",
        "2 2 LOAD_FAST a; 4 2 POP_JUMP_IF_FALSE 26; 6 3 NOP; 8 4 NOP; 10 - JUMP_FORWARD 24; 12 - PUSH_EXC_INFO; 14 5 POP_TOP; 16 - POP_EXCEPT; 18 6 JUMP_FORWARD 26; 20 - POP_EXCEPT; 22 - JUMP_FORWARD 24; 24 - JUMP_BACKWARD 2",
    ),
    (
        "while a:\n  try:\n   pass\n  except:\n   continue",
        "2 2 LOAD_FAST a; 4 2 POP_JUMP_IF_FALSE 26; 6 3 NOP; 8 4 NOP; 10 - JUMP_FORWARD 24; 12 - PUSH_EXC_INFO; 14 5 POP_TOP; 16 - POP_EXCEPT; 18 6 JUMP_BACKWARD 2; 20 - POP_EXCEPT; 22 - JUMP_FORWARD 24; 24 - JUMP_BACKWARD 2",
    ),
];

const EXCEPT_AS: [Row; 3] = [
    (
        "try:\n  pass\n except c as e:\n  return e",
        "2 2 NOP; 4 3 NOP; 6 - JUMP_FORWARD 40; 8 - PUSH_EXC_INFO; 10 4 LOAD_GLOBAL c; 12 4 CHECK_EXC_MATCH; 14 4 POP_JUMP_IF_FALSE 38; 16 4 STORE_FAST e; 18 5 LOAD_FAST e; 20 - POP_EXCEPT; 22 - DELETE_FAST e; 24 5 RETURN_VALUE; 26 - POP_EXCEPT; 28 - DELETE_FAST e; 30 - JUMP_FORWARD 40; 32 - PUSH_EXC_INFO; 34 - DELETE_FAST e; 36 - RERAISE; 38 - RERAISE",
    ),
    (
        "for d in a:\n  try:\n   pass\n  except c as e:\n   break",
        "2 2 LOAD_FAST a; 4 2 GET_ITER; 6 2 FOR_ITER; 8 2 POP_JUMP_IF_DONE 52; 10 2 STORE_FAST d; 12 3 NOP; 14 4 NOP; 16 - JUMP_FORWARD 50; 18 - PUSH_EXC_INFO; 20 5 LOAD_GLOBAL c; 22 5 CHECK_EXC_MATCH; 24 5 POP_JUMP_IF_FALSE 48; 26 5 STORE_FAST e; 28 - POP_EXCEPT; 30 - DELETE_FAST e; 32 - POP_TOP; 34 6 JUMP_FORWARD 54; 36 - POP_EXCEPT; 38 - DELETE_FAST e; 40 - JUMP_FORWARD 50; 42 - PUSH_EXC_INFO; 44 - DELETE_FAST e; 46 - RERAISE; 48 - RERAISE; 50 - JUMP_BACKWARD 6; 52 - END_FOR",
    ),
    (
        "for d in a:\n  try:\n   pass\n  except c as e:\n   continue",
        "2 2 LOAD_FAST a; 4 2 GET_ITER; 6 2 FOR_ITER; 8 2 POP_JUMP_IF_DONE 50; 10 2 STORE_FAST d; 12 3 NOP; 14 4 NOP; 16 - JUMP_FORWARD 48; 18 - PUSH_EXC_INFO; 20 5 LOAD_GLOBAL c; 22 5 CHECK_EXC_MATCH; 24 5 POP_JUMP_IF_FALSE 46; 26 5 STORE_FAST e; 28 - POP_EXCEPT; 30 - DELETE_FAST e; 32 6 JUMP_BACKWARD 6; 34 - POP_EXCEPT; 36 - DELETE_FAST e; 38 - JUMP_FORWARD 48; 40 - PUSH_EXC_INFO; 42 - DELETE_FAST e; 44 - RERAISE; 46 - RERAISE; 48 - JUMP_BACKWARD 6; 50 - END_FOR",
    ),
];

#[test]
fn leaves_while(rt: HostRuntime) -> Result<(), Fail> {
    check(&rt, rt.alloc(), WHILE.as_slice())
}

#[test]
fn leaves_for(rt: HostRuntime) -> Result<(), Fail> {
    check(&rt, rt.alloc(), FOR.as_slice())
}

#[test]
fn leaves_try(rt: HostRuntime) -> Result<(), Fail> {
    check(&rt, rt.alloc(), TRY.as_slice())
}

#[test]
fn leaves_except(rt: HostRuntime) -> Result<(), Fail> {
    check(&rt, rt.alloc(), EXCEPT.as_slice())
}

#[test]
fn leaves_except_as(rt: HostRuntime) -> Result<(), Fail> {
    check(&rt, rt.alloc(), EXCEPT_AS.as_slice())
}
