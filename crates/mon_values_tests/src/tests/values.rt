use super::sample::{Sample, build, is_text, prints_as};
use mon_shared::SharedItems;
use mon_values::class::is_subclass;
use mon_values::compare::compare;
use mon_values::contain::contains;
use mon_values::index::index;
use mon_values::operator::CmpOp;
use mon_values::print::repr;
use mon_values::text::{Text, TextBuffer};
use mon_values::truth::is_true;
use mon_values::value::{Value, copies_of};
use std::alloc::{AllocError, Global};
use std::test::Fail;
use std::thread;
use std::thread::Threads;

/// A value, and whether it counts as true.
struct TruthRow(Sample, bool);

fn truth_holds(alloc: Global, row: &TruthRow) -> Result<bool, AllocError> {
    let v = build(alloc, &row.0)?;
    Ok(is_true(&v) == row.1)
}

static TRUTH_ROWS: &[TruthRow] = &[
    TruthRow(Sample::None, false),
    TruthRow(Sample::Bool(false), false),
    TruthRow(Sample::Int(0), false),
    TruthRow(Sample::Int(-1), true),
    TruthRow(Sample::Text(""), false),
    TruthRow(Sample::Text("abc"), true),
    TruthRow(Sample::Nones(0), false),
    TruthRow(Sample::Nones(1), true),
    TruthRow(Sample::Range(0, 0, 1), false),
    TruthRow(Sample::Range(0, 9, 0), false),
    TruthRow(Sample::Range(0, 9, -1), false),
    TruthRow(Sample::Range(9, 0, -1), true),
    TruthRow(Sample::Bare(14), true),
    TruthRow(Sample::Function(0), true),
];

#[test]
fn empty_values_and_zeros_are_false(rt: HostRuntime) -> Result<(), Fail> {
    let alloc = rt.alloc();
    for (i, row) in TRUTH_ROWS.iter().enumerate() {
        assert!(rt; truth_holds(alloc, row)?, "row {i}");
    }
    Ok(())
}

#[test]
fn classes_are_below_their_parents(rt: HostRuntime) {
    assert!(rt; is_subclass(10, 9) && is_subclass(10, 0) && !is_subclass(9, 10));
    assert!(rt; is_subclass(77, 77) && !is_subclass(77, 0));
    assert!(rt; is_subclass(5, 4) && is_subclass(8, 7) && !is_subclass(2, 1));
}

fn copy_holds(alloc: Global, sample: &Sample) -> Result<bool, AllocError> {
    let v = build(alloc, sample)?;
    Ok(v.equals(&v.copy()?) && v.equals(&v.own(alloc)?))
}

static COPIED_SAMPLES: &[Sample] = &[
    Sample::None,
    Sample::Text("abc"),
    Sample::RaisedPair(16),
    Sample::Bare(3),
    Sample::Nested(64),
    Sample::Range(0, 5, 2),
    Sample::Done,
];

#[test]
fn copies_are_equal(rt: HostRuntime) -> Result<(), Fail> {
    let alloc = rt.alloc();
    for (i, sample) in COPIED_SAMPLES.iter().enumerate() {
        assert!(rt; copy_holds(alloc, sample)?, "row {i}");
    }
    Ok(())
}

fn copied_items(alloc: Global) -> Result<Value, AllocError> {
    let copies = copies_of(alloc, &[Value::Int(1), Value::None])?;
    Ok(Value::Tuple(SharedItems::from_vec(copies)?))
}

#[test]
fn items_are_copied(rt: HostRuntime) -> Result<(), Fail> {
    let alloc = rt.alloc();
    let copies = copied_items(alloc)?;
    assert!(rt; prints_as(alloc, &copies, "(1, None)")?);
    Ok(())
}

fn grown_text(alloc: Global) -> Result<Text, AllocError> {
    let mut text = TextBuffer::new(alloc);
    text.push('a')?;
    text.append(&['b', 'c'])?;
    text.append_ascii("de")?;
    text.into_text()?.copy()
}

#[test]
fn a_text_grows(rt: HostRuntime) -> Result<(), Fail> {
    let alloc = rt.alloc();
    let text = grown_text(alloc)?;
    assert!(rt; is_text(alloc, &text, "abcde")?);
    assert!(rt; text.len() == 5 && !text.is_empty());
    Ok(())
}

fn text_of_chars(alloc: Global, chars: &[char]) -> Result<Value, AllocError> {
    Ok(Value::Text(Text::from_chars(alloc, chars)?))
}

fn ends_with_wide(alloc: Global, text: &Value) -> Result<bool, AllocError> {
    let last = text_of_chars(alloc, &['\u{6f22}'])?;
    match index(alloc, text, &Value::Int(-1)) {
        Ok(item) => Ok(item.equals(&last)),
        Err(_) => Ok(false),
    }
}

#[test]
fn characters_above_127_are_whole(rt: HostRuntime) -> Result<(), Fail> {
    let alloc = rt.alloc();
    let text = text_of_chars(alloc, &['z', '\u{e9}', '\u{6f22}'])?;
    let accent = text_of_chars(alloc, &['\u{e9}'])?;
    assert!(rt; text.spend(3) == Some(0) && ends_with_wide(alloc, &text)?);
    assert!(rt; contains(&accent, &text) == Ok(true));
    assert!(rt; compare(CmpOp::Lt, &text, &accent) == Ok(true));
    let printed = ['\'', 'z', '\u{e9}', '\u{6f22}', '\''];
    assert!(rt; repr(alloc, &text, &[])?.chars() == printed.as_slice());
    Ok(())
}

fn crossed(rt: &impl Threads, value: Value) -> Value {
    let (there, _) = thread::join(rt, move || value, || ());
    there
}

#[test]
fn a_value_crosses_to_another_thread(rt: HostRuntime) -> Result<(), Fail> {
    let value = build(rt.alloc(), &Sample::RaisedPair(16))?;
    let there = crossed(&rt, value.copy()?);
    assert!(rt; there.equals(&value));
    Ok(())
}
