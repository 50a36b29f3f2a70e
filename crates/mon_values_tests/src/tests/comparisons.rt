use super::sample::{Sample, build};
use mon_values::compare::compare;
use mon_values::fault::Trouble;
use mon_values::operator::CmpOp;
use std::alloc::{AllocError, Global};
use std::process::Abort;
use std::test::Fail;

/// A comparison, and its answer, or the row of the exception.
struct CmpRow(CmpOp, Sample, Sample, Result<bool, Trouble>);

fn compare_holds(alloc: Global, row: &CmpRow) -> Result<bool, AllocError> {
    let a = build(alloc, &row.1)?;
    let b = build(alloc, &row.2)?;
    Ok(compare(row.0, &a, &b) == row.3)
}

fn check_compare(rt: &impl Abort, alloc: Global, rows: &[CmpRow]) -> Result<(), AllocError> {
    for (i, row) in rows.iter().enumerate() {
        assert!(rt; compare_holds(alloc, row)?, "row {i}");
    }
    Ok(())
}

static EQUALITY_ROWS: &[CmpRow] = &[
    CmpRow(CmpOp::Eq, Sample::Int(1), Sample::Bool(true), Ok(true)),
    CmpRow(CmpOp::Eq, Sample::Bool(false), Sample::Int(0), Ok(true)),
    CmpRow(CmpOp::Eq, Sample::Int(0), Sample::None, Ok(false)),
    CmpRow(CmpOp::Ne, Sample::Text("1"), Sample::Int(1), Ok(true)),
    CmpRow(CmpOp::Eq, Sample::Text(""), Sample::Nones(0), Ok(false)),
    CmpRow(
        CmpOp::Eq,
        Sample::Nones(0),
        Sample::Range(0, 0, 1),
        Ok(false),
    ),
    CmpRow(CmpOp::Eq, Sample::Class(14), Sample::Bare(14), Ok(false)),
    CmpRow(CmpOp::Eq, Sample::Bare(14), Sample::Bare(14), Ok(true)),
    CmpRow(CmpOp::Eq, Sample::Bare(14), Sample::Bare(13), Ok(false)),
    CmpRow(CmpOp::Eq, Sample::Raised(2), Sample::Raised(2), Ok(true)),
    CmpRow(CmpOp::Eq, Sample::Raised(2), Sample::Raised(3), Ok(false)),
    CmpRow(
        CmpOp::Eq,
        Sample::RaisedPair(2),
        Sample::RaisedPair(2),
        Ok(true),
    ),
    CmpRow(
        CmpOp::Eq,
        Sample::Function(3),
        Sample::Function(3),
        Ok(true),
    ),
    CmpRow(
        CmpOp::Eq,
        Sample::Function(3),
        Sample::Builtin(3),
        Ok(false),
    ),
    CmpRow(CmpOp::Eq, Sample::Gen(1), Sample::Iter(1), Ok(false)),
    CmpRow(CmpOp::Eq, Sample::None, Sample::None, Ok(true)),
    CmpRow(CmpOp::Eq, Sample::None, Sample::Bool(false), Ok(false)),
    CmpRow(CmpOp::Eq, Sample::Done, Sample::Done, Ok(true)),
    CmpRow(CmpOp::Eq, Sample::Done, Sample::None, Ok(false)),
    CmpRow(
        CmpOp::Eq,
        Sample::RaisedPair(2),
        Sample::RaisedPair(3),
        Ok(false),
    ),
    CmpRow(CmpOp::Ne, Sample::Pair(1, 2), Sample::Pair(1, 2), Ok(false)),
];

#[test]
fn values_are_equal_across_kinds(rt: HostRuntime) -> Result<(), Fail> {
    check_compare(&rt, rt.alloc(), EQUALITY_ROWS)?;
    Ok(())
}

static RANGE_EQUALITY_ROWS: &[CmpRow] = &[
    CmpRow(
        CmpOp::Eq,
        Sample::Range(0, 3, 2),
        Sample::Range(0, 4, 2),
        Ok(true),
    ),
    CmpRow(
        CmpOp::Ne,
        Sample::Range(0, 0, 1),
        Sample::Range(5, 1, 7),
        Ok(false),
    ),
    CmpRow(
        CmpOp::Eq,
        Sample::Range(1, 2, 1),
        Sample::Range(1, -9, -50),
        Ok(true),
    ),
    CmpRow(
        CmpOp::Eq,
        Sample::Range(0, 4, 2),
        Sample::Range(0, 4, 3),
        Ok(false),
    ),
    CmpRow(
        CmpOp::Eq,
        Sample::Range(0, 3, 1),
        Sample::Range(2, -1, -1),
        Ok(false),
    ),
    CmpRow(
        CmpOp::Eq,
        Sample::Range(i64::MIN, i64::MAX, 1),
        Sample::Range(i64::MIN, i64::MAX, 1),
        Ok(true),
    ),
    CmpRow(
        CmpOp::Lt,
        Sample::Range(0, 1, 1),
        Sample::Range(0, 2, 1),
        Err(Trouble(2)),
    ),
];

#[test]
fn ranges_are_equal_as_sequences(rt: HostRuntime) -> Result<(), Fail> {
    check_compare(&rt, rt.alloc(), RANGE_EQUALITY_ROWS)?;
    Ok(())
}

static ORDER_ROWS: &[CmpRow] = &[
    CmpRow(CmpOp::Lt, Sample::Text("ab"), Sample::Text("abc"), Ok(true)),
    CmpRow(CmpOp::Gt, Sample::Text("b"), Sample::Text("abc"), Ok(true)),
    CmpRow(CmpOp::Ge, Sample::Text("ab"), Sample::Text("ab"), Ok(true)),
    CmpRow(CmpOp::Lt, Sample::Text("Z"), Sample::Text("a"), Ok(true)),
    CmpRow(CmpOp::Lt, Sample::Bool(false), Sample::Int(1), Ok(true)),
    CmpRow(
        CmpOp::Lt,
        Sample::Int(i64::MIN),
        Sample::Int(i64::MAX),
        Ok(true),
    ),
    CmpRow(CmpOp::Lt, Sample::Pair(1, 2), Sample::Pair(1, 3), Ok(true)),
    CmpRow(CmpOp::Gt, Sample::Pair(2, 0), Sample::Pair(1, 3), Ok(true)),
    CmpRow(CmpOp::Le, Sample::Pair(1, 2), Sample::Pair(1, 2), Ok(true)),
    CmpRow(CmpOp::Lt, Sample::Nones(0), Sample::Pair(1, 2), Ok(true)),
    CmpRow(CmpOp::Lt, Sample::Nones(2), Sample::Nones(3), Ok(true)),
    CmpRow(
        CmpOp::Lt,
        Sample::TextPair("a", "b"),
        Sample::TextPair("a", "c"),
        Ok(true),
    ),
    CmpRow(CmpOp::Lt, Sample::TruePair, Sample::Pair(2, 0), Ok(true)),
    CmpRow(
        CmpOp::Lt,
        Sample::TruePair,
        Sample::Pair(1, 0),
        Err(Trouble(2)),
    ),
    CmpRow(
        CmpOp::Lt,
        Sample::Lone("a"),
        Sample::Pair(1, 2),
        Err(Trouble(2)),
    ),
    CmpRow(
        CmpOp::Le,
        Sample::RaisedPair(2),
        Sample::RaisedPair(2),
        Ok(true),
    ),
    CmpRow(
        CmpOp::Lt,
        Sample::RaisedPair(2),
        Sample::RaisedPair(3),
        Err(Trouble(2)),
    ),
    CmpRow(CmpOp::Le, Sample::None, Sample::None, Err(Trouble(2))),
    CmpRow(
        CmpOp::Lt,
        Sample::Int(1),
        Sample::Text("a"),
        Err(Trouble(2)),
    ),
];

#[test]
fn integers_texts_and_tuples_are_in_order(rt: HostRuntime) -> Result<(), Fail> {
    check_compare(&rt, rt.alloc(), ORDER_ROWS)?;
    Ok(())
}
