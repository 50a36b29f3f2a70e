use super::sample::{Sample, Want, build, meets, raises};
use mon_values::arith::arith;
use mon_values::fault::ArithFault;
use mon_values::operator::ArithOp;
use mon_values::value::Value;
use std::alloc::{AllocError, Global};
use std::process::Abort;
use std::test::Fail;

/// An operator of two values, and what is given.
pub struct ArithRow(pub ArithOp, pub Sample, pub Sample, pub Want);

fn arith_gives(
    alloc: Global,
    op: ArithOp,
    a: &Value,
    b: &Value,
    want: &Want,
) -> Result<bool, AllocError> {
    match arith(alloc, op, a, b) {
        Ok(v) => meets(alloc, &v, want),
        Err(ArithFault::Trouble(trouble)) => Ok(raises(trouble, want)),
        Err(ArithFault::Memory) => Ok(false),
    }
}

fn arith_holds(alloc: Global, row: &ArithRow) -> Result<bool, AllocError> {
    let a = build(alloc, &row.1)?;
    let b = build(alloc, &row.2)?;
    arith_gives(alloc, row.0, &a, &b, &row.3)
}

pub(super) fn check_arith(
    rt: &impl Abort,
    alloc: Global,
    rows: &[ArithRow],
) -> Result<(), AllocError> {
    for (i, row) in rows.iter().enumerate() {
        assert!(rt; arith_holds(alloc, row)?, "row {i}");
    }
    Ok(())
}

static OPERAND_ROWS: &[ArithRow] = &[
    ArithRow(
        ArithOp::Add,
        Sample::Bool(true),
        Sample::Int(1),
        Want::Prints("2"),
    ),
    ArithRow(
        ArithOp::Mod,
        Sample::Int(3),
        Sample::Bool(false),
        Want::Raises(14),
    ),
    ArithRow(ArithOp::Add, Sample::Int(1), Sample::None, Want::Raises(1)),
    ArithRow(
        ArithOp::Add,
        Sample::Text("a"),
        Sample::Int(1),
        Want::Raises(1),
    ),
    ArithRow(
        ArithOp::Sub,
        Sample::Text("a"),
        Sample::Text("a"),
        Want::Raises(1),
    ),
    ArithRow(
        ArithOp::Mul,
        Sample::Text("a"),
        Sample::Text("a"),
        Want::Raises(1),
    ),
    ArithRow(
        ArithOp::FloorDiv,
        Sample::None,
        Sample::Int(0),
        Want::Raises(1),
    ),
    ArithRow(
        ArithOp::Add,
        Sample::Text("ab"),
        Sample::Text("c"),
        Want::Prints("'abc'"),
    ),
    ArithRow(
        ArithOp::Add,
        Sample::Pair(1, 2),
        Sample::Lone("x"),
        Want::Prints("(1, 2, 'x')"),
    ),
    ArithRow(
        ArithOp::Mul,
        Sample::Text("ab"),
        Sample::Int(2),
        Want::Prints("'abab'"),
    ),
    ArithRow(
        ArithOp::Mul,
        Sample::Bool(true),
        Sample::Pair(1, 2),
        Want::Prints("(1, 2)"),
    ),
    ArithRow(
        ArithOp::Mul,
        Sample::Int(-1),
        Sample::Pair(1, 2),
        Want::Prints("()"),
    ),
    ArithRow(
        ArithOp::Mul,
        Sample::Text("ab"),
        Sample::Int(0),
        Want::Prints("''"),
    ),
];

#[test]
fn operators_take_integers_texts_and_tuples(rt: HostRuntime) -> Result<(), Fail> {
    check_arith(&rt, rt.alloc(), OPERAND_ROWS)?;
    Ok(())
}
