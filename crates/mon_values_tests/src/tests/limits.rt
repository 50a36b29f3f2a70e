use super::operators::{ArithRow, check_arith};
use super::sample::{Sample, Want, build, meets, raises};
use mon_values::exc::make_exc;
use mon_values::fault::ExcFault;
use mon_values::operator::ArithOp;
use mon_values::value::Value;
use std::alloc::{AllocError, Global};
use std::test::Fail;

static WEIGHT_ROWS: &[ArithRow] = &[
    ArithRow(
        ArithOp::Mul,
        Sample::Text("a"),
        Sample::Int(4096),
        Want::Weighs(4096),
    ),
    ArithRow(
        ArithOp::Mul,
        Sample::Text("a"),
        Sample::Int(4097),
        Want::Raises(16),
    ),
    ArithRow(
        ArithOp::Mul,
        Sample::Text(""),
        Sample::Int(i64::MAX),
        Want::Weighs(1),
    ),
    ArithRow(
        ArithOp::Mul,
        Sample::Int(4095),
        Sample::Nones(1),
        Want::Weighs(4096),
    ),
    ArithRow(
        ArithOp::Mul,
        Sample::Int(4096),
        Sample::Nones(1),
        Want::Raises(16),
    ),
    ArithRow(
        ArithOp::Mul,
        Sample::Int(i64::MAX),
        Sample::Nones(0),
        Want::Weighs(1),
    ),
    ArithRow(
        ArithOp::Add,
        Sample::Letters(4095),
        Sample::Text("b"),
        Want::Weighs(4096),
    ),
    ArithRow(
        ArithOp::Add,
        Sample::Letters(4096),
        Sample::Text("b"),
        Want::Raises(16),
    ),
    ArithRow(
        ArithOp::Add,
        Sample::Nones(4000),
        Sample::Nones(95),
        Want::Weighs(4096),
    ),
    ArithRow(
        ArithOp::Add,
        Sample::Nones(4000),
        Sample::Nones(96),
        Want::Raises(16),
    ),
    ArithRow(
        ArithOp::Add,
        Sample::Nested(65),
        Sample::Nones(4095),
        Want::Raises(16),
    ),
    ArithRow(
        ArithOp::Add,
        Sample::RaisedPair(16),
        Sample::Nones(4078),
        Want::Weighs(4096),
    ),
    ArithRow(
        ArithOp::Add,
        Sample::RaisedPair(16),
        Sample::Nones(4079),
        Want::Raises(16),
    ),
];

#[test]
fn a_made_value_weighs_at_most_4096(rt: HostRuntime) -> Result<(), Fail> {
    check_arith(&rt, rt.alloc(), WEIGHT_ROWS)?;
    Ok(())
}

static DEPTH_ROWS: &[ArithRow] = &[
    ArithRow(
        ArithOp::Add,
        Sample::Nested(64),
        Sample::Nones(0),
        Want::Nests(64),
    ),
    ArithRow(
        ArithOp::Add,
        Sample::Nested(65),
        Sample::Nones(0),
        Want::Raises(17),
    ),
    ArithRow(
        ArithOp::Add,
        Sample::Nones(1),
        Sample::Nested(65),
        Want::Raises(17),
    ),
    ArithRow(
        ArithOp::Mul,
        Sample::Nested(64),
        Sample::Int(3),
        Want::Nests(64),
    ),
    ArithRow(
        ArithOp::Mul,
        Sample::Nested(65),
        Sample::Int(3),
        Want::Raises(17),
    ),
    ArithRow(
        ArithOp::Mul,
        Sample::Nested(65),
        Sample::Int(0),
        Want::Nests(1),
    ),
    ArithRow(
        ArithOp::Mul,
        Sample::RaisedPair(16),
        Sample::Int(2),
        Want::Nests(2),
    ),
];

#[test]
fn a_made_value_nests_at_most_64_deep(rt: HostRuntime) -> Result<(), Fail> {
    check_arith(&rt, rt.alloc(), DEPTH_ROWS)?;
    Ok(())
}

/// An argument of a ValueError that is made, and what is given.
struct ExcRow(Sample, Want);

fn made_gives(alloc: Global, arg: &Value, want: &Want) -> Result<bool, AllocError> {
    match make_exc(alloc, 14, Some(arg)) {
        Ok(exc) => meets(alloc, &Value::Exc(exc), want),
        Err(ExcFault::Trouble(trouble)) => Ok(raises(trouble, want)),
        Err(ExcFault::Memory) => Ok(false),
    }
}

fn made_holds(alloc: Global, row: &ExcRow) -> Result<bool, AllocError> {
    let arg = build(alloc, &row.0)?;
    made_gives(alloc, &arg, &row.1)
}

static EXC_ROWS: &[ExcRow] = &[
    ExcRow(Sample::Text("x"), Want::Prints("ValueError('x')")),
    ExcRow(Sample::Letters(4095), Want::Weighs(4096)),
    ExcRow(Sample::Letters(4096), Want::Raises(16)),
    ExcRow(Sample::Nested(63), Want::Nests(64)),
    ExcRow(Sample::Nested(64), Want::Raises(17)),
    ExcRow(Sample::NestedExc(3, 62), Want::Nests(64)),
    ExcRow(Sample::NestedExc(3, 63), Want::Raises(17)),
];

#[test]
fn a_made_exception_keeps_the_limits(rt: HostRuntime) -> Result<(), Fail> {
    let alloc = rt.alloc();
    for (i, row) in EXC_ROWS.iter().enumerate() {
        assert!(rt; made_holds(alloc, row)?, "row {i}");
    }
    assert!(rt; make_exc(alloc, 14, None).is_ok());
    Ok(())
}
