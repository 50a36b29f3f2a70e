use super::sample::{Sample, Want, build, meets, raises};
use mon_values::contain::contains;
use mon_values::fault::{IndexFault, Trouble};
use mon_values::index::index;
use mon_values::value::Value;
use std::alloc::{AllocError, Global};
use std::process::Abort;
use std::test::Fail;

/// Whether the first stands in the second, or the row of the exception.
struct ContainsRow(Sample, Sample, Result<bool, Trouble>);

fn contains_holds(alloc: Global, row: &ContainsRow) -> Result<bool, AllocError> {
    let item = build(alloc, &row.0)?;
    let whole = build(alloc, &row.1)?;
    Ok(contains(&item, &whole) == row.2)
}

static CONTAINS_ROWS: &[ContainsRow] = &[
    ContainsRow(Sample::Text("bc"), Sample::Text("abc"), Ok(true)),
    ContainsRow(Sample::Text(""), Sample::Text(""), Ok(true)),
    ContainsRow(Sample::Text("ac"), Sample::Text("abc"), Ok(false)),
    ContainsRow(Sample::Text("abcd"), Sample::Text("abc"), Ok(false)),
    ContainsRow(Sample::Int(1), Sample::Text("abc"), Err(Trouble(6))),
    ContainsRow(Sample::Bool(true), Sample::Pair(0, 2), Ok(false)),
    ContainsRow(Sample::Bool(true), Sample::Pair(0, 1), Ok(true)),
    ContainsRow(Sample::Raised(16), Sample::RaisedPair(16), Ok(true)),
    ContainsRow(Sample::Int(4), Sample::Range(10, 0, -2), Ok(true)),
    ContainsRow(Sample::Int(0), Sample::Range(10, 0, -2), Ok(false)),
    ContainsRow(Sample::Int(5), Sample::Range(10, 0, -2), Ok(false)),
    ContainsRow(Sample::Int(0), Sample::Range(0, 0, 1), Ok(false)),
    ContainsRow(
        Sample::Int(-1),
        Sample::Range(i64::MIN, i64::MAX, 1),
        Ok(true),
    ),
    ContainsRow(Sample::Text("a"), Sample::Range(0, 5, 1), Ok(false)),
    ContainsRow(Sample::Text("ab"), Sample::Int(1), Err(Trouble(3))),
];

#[test]
fn texts_tuples_and_ranges_contain_their_parts(rt: HostRuntime) -> Result<(), Fail> {
    let alloc = rt.alloc();
    for (i, row) in CONTAINS_ROWS.iter().enumerate() {
        assert!(rt; contains_holds(alloc, row)?, "row {i}");
    }
    Ok(())
}

/// A value, an index, and what stands there.
struct IndexRow(Sample, Sample, Want);

fn index_gives(alloc: Global, whole: &Value, at: &Value, want: &Want) -> Result<bool, AllocError> {
    match index(alloc, whole, at) {
        Ok(v) => meets(alloc, &v, want),
        Err(IndexFault::Trouble(trouble)) => Ok(raises(trouble, want)),
        Err(IndexFault::Memory) => Ok(false),
    }
}

fn index_holds(alloc: Global, row: &IndexRow) -> Result<bool, AllocError> {
    let whole = build(alloc, &row.0)?;
    let at = build(alloc, &row.1)?;
    index_gives(alloc, &whole, &at, &row.2)
}

fn check_index(rt: &impl Abort, alloc: Global, rows: &[IndexRow]) -> Result<(), AllocError> {
    for (i, row) in rows.iter().enumerate() {
        assert!(rt; index_holds(alloc, row)?, "row {i}");
    }
    Ok(())
}

static INDEX_ROWS: &[IndexRow] = &[
    IndexRow(Sample::Text("abc"), Sample::Int(-1), Want::Prints("'c'")),
    IndexRow(Sample::Text("abc"), Sample::Int(-3), Want::Prints("'a'")),
    IndexRow(Sample::Text("abc"), Sample::Int(-4), Want::Raises(19)),
    IndexRow(Sample::Text("abc"), Sample::Int(3), Want::Raises(19)),
    IndexRow(Sample::Text("abc"), Sample::Bool(true), Want::Prints("'b'")),
    IndexRow(Sample::Text("abc"), Sample::Int(i64::MIN), Want::Raises(19)),
    IndexRow(Sample::Pair(1, 2), Sample::Int(0), Want::Prints("1")),
    IndexRow(Sample::Pair(1, 2), Sample::Int(-2), Want::Prints("1")),
    IndexRow(Sample::Pair(1, 2), Sample::Int(2), Want::Raises(19)),
    IndexRow(Sample::Pair(1, 2), Sample::None, Want::Raises(6)),
    IndexRow(
        Sample::RaisedPair(19),
        Sample::Int(0),
        Want::Prints("IndexError('index out of range')"),
    ),
    IndexRow(Sample::Nones(0), Sample::Int(0), Want::Raises(19)),
    IndexRow(Sample::None, Sample::None, Want::Raises(1)),
    IndexRow(Sample::Int(5), Sample::Int(0), Want::Raises(1)),
];

#[test]
fn subscripts_of_texts_and_tuples(rt: HostRuntime) -> Result<(), Fail> {
    check_index(&rt, rt.alloc(), INDEX_ROWS)?;
    Ok(())
}

static RANGE_ROWS: &[IndexRow] = &[
    IndexRow(Sample::Range(0, 10, 3), Sample::Int(3), Want::Prints("9")),
    IndexRow(Sample::Range(0, 10, 3), Sample::Int(4), Want::Raises(19)),
    IndexRow(Sample::Range(5, -5, -3), Sample::Int(3), Want::Prints("-4")),
    IndexRow(Sample::Range(5, -5, -3), Sample::Int(-4), Want::Prints("5")),
    IndexRow(Sample::Range(5, -5, -3), Sample::Int(-5), Want::Raises(19)),
    IndexRow(Sample::Range(0, 0, 1), Sample::Int(0), Want::Raises(19)),
    IndexRow(Sample::Range(0, 9, 0), Sample::Int(0), Want::Raises(19)),
    IndexRow(Sample::Range(0, 9, 1), Sample::Text("0"), Want::Raises(6)),
    IndexRow(
        Sample::Range(i64::MIN, i64::MAX, 1),
        Sample::Int(-1),
        Want::Prints("9223372036854775806"),
    ),
    IndexRow(
        Sample::Range(i64::MIN, i64::MAX, 1),
        Sample::Int(i64::MAX),
        Want::Prints("-1"),
    ),
    IndexRow(
        Sample::Range(i64::MAX, i64::MIN, -9223372036854775807),
        Sample::Int(2),
        Want::Prints("-9223372036854775807"),
    ),
];

#[test]
fn subscripts_of_ranges(rt: HostRuntime) -> Result<(), Fail> {
    check_index(&rt, rt.alloc(), RANGE_ROWS)?;
    Ok(())
}
