//! The code of expressions.

use super::filled;
use super::show::listing;
use std::alloc::Global;
use std::process::Abort;
use std::test::Fail;

/// An expression, and its code in a function with the parameters `a` and `b` that returns it.
type Row = (&'static str, &'static str);

const ATOMS: [Row; 9] = [
    ("7", "2 1 LOAD_CONST 7"),
    ("'x' \"y\"", "2 1 LOAD_CONST 'xy'"),
    ("()", "2 1 LOAD_CONST ()"),
    ("None", "2 1 LOAD_CONST None"),
    ("True", "2 1 LOAD_CONST True"),
    ("False", "2 1 LOAD_CONST False"),
    ("a", "2 1 LOAD_FAST a"),
    ("b", "2 1 LOAD_FAST b"),
    ("c", "2 1 LOAD_GLOBAL c"),
];

const OPERATORS: [Row; 19] = [
    ("a + b", "2 1 LOAD_FAST a; 4 1 LOAD_FAST b; 6 1 BINARY_OP +"),
    ("a - b", "2 1 LOAD_FAST a; 4 1 LOAD_FAST b; 6 1 BINARY_OP -"),
    ("a * b", "2 1 LOAD_FAST a; 4 1 LOAD_FAST b; 6 1 BINARY_OP *"),
    (
        "a // b",
        "2 1 LOAD_FAST a; 4 1 LOAD_FAST b; 6 1 BINARY_OP //",
    ),
    ("a % b", "2 1 LOAD_FAST a; 4 1 LOAD_FAST b; 6 1 BINARY_OP %"),
    (
        "a == b",
        "2 1 LOAD_FAST a; 4 1 LOAD_FAST b; 6 1 COMPARE_OP ==",
    ),
    (
        "a != b",
        "2 1 LOAD_FAST a; 4 1 LOAD_FAST b; 6 1 COMPARE_OP !=",
    ),
    (
        "a < b",
        "2 1 LOAD_FAST a; 4 1 LOAD_FAST b; 6 1 COMPARE_OP <",
    ),
    (
        "a <= b",
        "2 1 LOAD_FAST a; 4 1 LOAD_FAST b; 6 1 COMPARE_OP <=",
    ),
    (
        "a > b",
        "2 1 LOAD_FAST a; 4 1 LOAD_FAST b; 6 1 COMPARE_OP >",
    ),
    (
        "a >= b",
        "2 1 LOAD_FAST a; 4 1 LOAD_FAST b; 6 1 COMPARE_OP >=",
    ),
    (
        "a in b",
        "2 1 LOAD_FAST a; 4 1 LOAD_FAST b; 6 1 CONTAINS_OP 0",
    ),
    (
        "a not in b",
        "2 1 LOAD_FAST a; 4 1 LOAD_FAST b; 6 1 CONTAINS_OP 1",
    ),
    (
        "a is None",
        "2 1 LOAD_FAST a; 4 1 LOAD_CONST None; 6 1 IS_OP 0",
    ),
    (
        "a is not True",
        "2 1 LOAD_FAST a; 4 1 LOAD_CONST True; 6 1 IS_OP 1",
    ),
    ("-a", "2 1 LOAD_FAST a; 4 1 UNARY_NEGATIVE"),
    ("-1", "2 1 LOAD_CONST 1; 4 1 UNARY_NEGATIVE"),
    ("not a", "2 1 LOAD_FAST a; 4 1 UNARY_NOT"),
    (
        "a[b]",
        "2 1 LOAD_FAST a; 4 1 LOAD_FAST b; 6 1 BINARY_SUBSCR",
    ),
];

const PARTS: [Row; 9] = [
    ("a,", "2 1 LOAD_FAST a; 4 1 BUILD_TUPLE 1"),
    (
        "a, b, 1",
        "2 1 LOAD_FAST a; 4 1 LOAD_FAST b; 6 1 LOAD_CONST 1; 8 1 BUILD_TUPLE 3",
    ),
    ("c()", "2 1 LOAD_GLOBAL c; 4 1 CALL 0"),
    (
        "c(a, b)",
        "2 1 LOAD_GLOBAL c; 4 1 LOAD_FAST a; 6 1 LOAD_FAST b; 8 1 CALL 2",
    ),
    (
        "a.send(b)",
        "2 1 LOAD_FAST a; 4 1 LOAD_METHOD send; 6 1 LOAD_FAST b; 8 1 CALL 2",
    ),
    (
        "a.throw(c)",
        "2 1 LOAD_FAST a; 4 1 LOAD_METHOD throw; 6 1 LOAD_GLOBAL c; 8 1 CALL 2",
    ),
    (
        "a.close()",
        "2 1 LOAD_FAST a; 4 1 LOAD_METHOD close; 6 1 CALL 1",
    ),
    (
        "a - b - 1",
        "2 1 LOAD_FAST a; 4 1 LOAD_FAST b; 6 1 BINARY_OP -; 8 1 LOAD_CONST 1; 10 1 BINARY_OP -",
    ),
    (
        "a + b * 2",
        "2 1 LOAD_FAST a; 4 1 LOAD_FAST b; 6 1 LOAD_CONST 2; 8 1 BINARY_OP *; 10 1 BINARY_OP +",
    ),
];

const BRANCHES: [Row; 5] = [
    (
        "a and b",
        "2 1 LOAD_FAST a; 4 1 COPY 1; 6 1 POP_JUMP_IF_FALSE 12; 8 1 POP_TOP; 10 1 LOAD_FAST b",
    ),
    (
        "a or b",
        "2 1 LOAD_FAST a; 4 1 COPY 1; 6 1 POP_JUMP_IF_TRUE 12; 8 1 POP_TOP; 10 1 LOAD_FAST b",
    ),
    (
        "a and b or c",
        "2 1 LOAD_FAST a; 4 1 COPY 1; 6 1 POP_JUMP_IF_FALSE 12; 8 1 POP_TOP; 10 1 LOAD_FAST b; 12 1 COPY 1; 14 1 POP_JUMP_IF_TRUE 20; 16 1 POP_TOP; 18 1 LOAD_GLOBAL c",
    ),
    (
        "a if c else b",
        "2 1 LOAD_GLOBAL c; 4 1 POP_JUMP_IF_FALSE 10; 6 1 LOAD_FAST a; 8 - JUMP_FORWARD 12; 10 1 LOAD_FAST b",
    ),
    (
        "1 + (a if b else 2)",
        "2 1 LOAD_CONST 1; 4 1 LOAD_FAST b; 6 1 POP_JUMP_IF_FALSE 12; 8 1 LOAD_FAST a; 10 - JUMP_FORWARD 14; 12 1 LOAD_CONST 2; 14 1 BINARY_OP +",
    ),
];

fn check(rt: &impl Abort, alloc: Global, rows: &[Row]) -> Result<(), Fail> {
    for (expression, wanted) in rows {
        let text = filled(alloc, "def f(a, b): return ", expression, 1, "\n")?;
        let out = listing(alloc, text.as_bytes(), 1, 3)?;
        drop(text);
        assert_eq!(rt; out.as_str(), *wanted, "of {expression:?}");
    }
    Ok(())
}

#[test]
fn atoms_are_loaded(rt: HostRuntime) -> Result<(), Fail> {
    check(&rt, rt.alloc(), ATOMS.as_slice())
}

#[test]
fn operators_follow_their_operands(rt: HostRuntime) -> Result<(), Fail> {
    check(&rt, rt.alloc(), OPERATORS.as_slice())
}

#[test]
fn parts_stand_in_order(rt: HostRuntime) -> Result<(), Fail> {
    check(&rt, rt.alloc(), PARTS.as_slice())
}

#[test]
fn branches_of_expressions_jump(rt: HostRuntime) -> Result<(), Fail> {
    check(&rt, rt.alloc(), BRANCHES.as_slice())
}
