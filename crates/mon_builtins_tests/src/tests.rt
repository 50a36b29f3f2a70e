use mon_builtins::{Given, call_builtin};
use mon_frames::Frames;
use mon_shared::SharedItems;
use mon_values::print::repr;
use mon_values::text::{Text, TextBuffer};
use mon_values::value::Value;
use std::alloc::{AllocError, Global};
use std::process::Abort;
use std::test::Fail;

/// A value to build.
enum Sample {
    None,
    Bool(bool),
    Int(i64),
    Text(&'static str),
    /// A text of so many `a`.
    Letters(u64),
    Chars(&'static [char]),
    Pair(i64, i64),
    Range(i64, i64, i64),
    Gen(u32),
    Iter(u32),
}

fn letters(alloc: Global, count: u64) -> Result<Value, AllocError> {
    let mut text = TextBuffer::new(alloc);
    for _turn in 0..count {
        text.push('a')?;
    }
    Ok(Value::Text(text.into_text()?))
}

fn pair(alloc: Global, a: i64, b: i64) -> Result<Value, AllocError> {
    let mut items = Vec::new(alloc);
    items.push(Value::Int(a))?;
    items.push(Value::Int(b))?;
    Ok(Value::Tuple(SharedItems::from_vec(items)?))
}

fn build(alloc: Global, sample: &Sample) -> Result<Value, AllocError> {
    match sample {
        Sample::None => Ok(Value::None),
        Sample::Bool(b) => Ok(Value::Bool(*b)),
        Sample::Int(n) => Ok(Value::Int(*n)),
        Sample::Text(ascii) => Ok(Value::Text(Text::from_ascii(alloc, ascii)?)),
        Sample::Letters(count) => letters(alloc, *count),
        Sample::Chars(chars) => Ok(Value::Text(Text::from_chars(alloc, chars)?)),
        Sample::Pair(a, b) => pair(alloc, *a, *b),
        Sample::Range(start, stop, step) => Ok(Value::Range(*start, *stop, *step)),
        Sample::Gen(k) => Ok(Value::Gen(*k)),
        Sample::Iter(k) => Ok(Value::Iter(*k)),
    }
}

/// What a builtin should give: a value or an exception that prints so, a text for the output, or a generator to resume.
enum Want {
    Value(&'static str),
    Printed(&'static str),
    PrintedChars(&'static [char]),
    Raised(&'static str),
    Next(u32),
}

fn is_text(alloc: Global, text: &Text, want: &str) -> Result<bool, AllocError> {
    Ok(text.chars() == Text::from_ascii(alloc, want)?.chars())
}

fn prints_as(alloc: Global, v: &Value, want: &str) -> Result<bool, AllocError> {
    is_text(alloc, &repr(alloc, v, &[])?, want)
}

fn meets(alloc: Global, given: Given, want: &Want) -> Result<bool, AllocError> {
    match (given, want) {
        (Given::Value(v), Want::Value(ascii)) => prints_as(alloc, &v, ascii),
        (Given::Printed(text), Want::Printed(ascii)) => is_text(alloc, &text, ascii),
        (Given::Printed(text), Want::PrintedChars(chars)) => Ok(text.chars() == *chars),
        (Given::Raised(exc), Want::Raised(ascii)) => prints_as(alloc, &Value::Exc(exc), ascii),
        (Given::Next(number), Want::Next(wanted)) => Ok(number == *wanted),
        _ => Ok(false),
    }
}

/// A builtin by its number, its arguments, and what it should give.
struct Row(u8, &'static [Sample], Want);

fn holds(alloc: Global, frames: &mut Frames, row: &Row) -> Result<bool, AllocError> {
    let mut args = Vec::new(alloc);
    for sample in row.1 {
        args.push(build(alloc, sample)?)?;
    }
    if row.0 > 10 {
        return Ok(false);
    }
    match call_builtin(alloc, row.0, args.as_slice(), &[], frames) {
        Ok(given) => meets(alloc, given, &row.2),
        Err(_) => Ok(false),
    }
}

/// Calls one after another, over the same frames.
fn check(rt: &impl Abort, alloc: Global, rows: &[Row]) -> Result<(), AllocError> {
    let mut frames = Frames::new(alloc);
    for (i, row) in rows.iter().enumerate() {
        assert!(rt; holds(alloc, &mut frames, row)?, "row {i}");
    }
    Ok(())
}

static VALUES: &[Row] = &[
    Row(1, &[Sample::Range(0, 10, 3)], Want::Value("4")),
    Row(1, &[Sample::Letters(3)], Want::Value("3")),
    Row(
        1,
        &[Sample::Chars(&['\u{e9}', '\u{6f22}'])],
        Want::Value("2"),
    ),
    Row(1, &[Sample::Pair(1, 2)], Want::Value("2")),
    Row(2, &[Sample::Int(4)], Want::Value("range(0, 4)")),
    Row(
        2,
        &[Sample::Int(1), Sample::Bool(true)],
        Want::Value("range(1, 1)"),
    ),
    Row(
        2,
        &[Sample::Int(1), Sample::Int(5), Sample::Int(-2)],
        Want::Value("range(1, 5, -2)"),
    ),
    Row(3, &[Sample::Pair(1, 2)], Want::Value("'(1, 2)'")),
    Row(4, &[Sample::Text(" -12 ")], Want::Value("-12")),
    Row(4, &[Sample::Text("+1_000\n")], Want::Value("1000")),
    Row(
        4,
        &[Sample::Text("-9223372036854775808")],
        Want::Value("-9223372036854775808"),
    ),
    Row(4, &[Sample::Bool(true)], Want::Value("1")),
    Row(5, &[Sample::Int(-3)], Want::Value("3")),
    Row(
        7,
        &[Sample::Int(3), Sample::Int(9), Sample::Int(4)],
        Want::Value("9"),
    ),
    Row(
        6,
        &[Sample::Bool(true), Sample::Int(1)],
        Want::Value("True"),
    ),
    Row(6, &[Sample::Pair(4, 2)], Want::Value("2")),
    Row(7, &[Sample::Text("abca")], Want::Value("'c'")),
    Row(6, &[Sample::Range(5, -5, -4)], Want::Value("-3")),
    Row(7, &[Sample::Range(5, -5, -4)], Want::Value("5")),
    Row(8, &[], Want::Value("()")),
    Row(8, &[Sample::Text("ab")], Want::Value("('a', 'b')")),
    Row(8, &[Sample::Pair(1, 2)], Want::Value("(1, 2)")),
    Row(8, &[Sample::Range(0, 3, 1)], Want::Value("(0, 1, 2)")),
];

#[test]
fn builtins_give_values(rt: HostRuntime) -> Result<(), Fail> {
    check(&rt, rt.alloc(), VALUES)?;
    Ok(())
}

static EXCEPTIONS: &[Row] = &[
    Row(
        0,
        &[Sample::Letters(4096), Sample::Text("")],
        Want::Raised("OverflowError('value too large')"),
    ),
    Row(
        1,
        &[],
        Want::Raised("TypeError('wrong number of arguments')"),
    ),
    Row(
        1,
        &[Sample::Int(1)],
        Want::Raised("TypeError('wrong argument')"),
    ),
    Row(
        1,
        &[Sample::Range(i64::MIN, i64::MAX, 1)],
        Want::Raised("OverflowError('integer out of range')"),
    ),
    Row(
        2,
        &[Sample::None, Sample::Int(1), Sample::Int(0)],
        Want::Raised("TypeError('wrong argument')"),
    ),
    Row(
        2,
        &[Sample::Int(0), Sample::Int(1), Sample::Bool(false)],
        Want::Raised("ValueError('step is zero')"),
    ),
    Row(
        4,
        &[Sample::Text("1__0")],
        Want::Raised("ValueError('invalid literal')"),
    ),
    Row(
        4,
        &[Sample::Text("9223372036854775808")],
        Want::Raised("OverflowError('integer out of range')"),
    ),
    Row(
        4,
        &[Sample::Text("-99999999999999999999999")],
        Want::Raised("OverflowError('integer out of range')"),
    ),
    Row(
        4,
        &[Sample::Chars(&['\u{663}'])],
        Want::Raised("ValueError('invalid literal')"),
    ),
    Row(
        5,
        &[Sample::Int(i64::MIN)],
        Want::Raised("OverflowError('integer out of range')"),
    ),
    Row(
        6,
        &[Sample::Text("")],
        Want::Raised("ValueError('empty argument')"),
    ),
    Row(
        7,
        &[Sample::Int(1), Sample::None],
        Want::Raised("TypeError('not comparable')"),
    ),
    Row(
        7,
        &[Sample::None],
        Want::Raised("TypeError('not iterable')"),
    ),
    Row(
        8,
        &[Sample::Range(0, 4096, 1)],
        Want::Raised("OverflowError('value too large')"),
    ),
    Row(
        9,
        &[Sample::Text("a")],
        Want::Raised("TypeError('wrong argument')"),
    ),
    Row(
        10,
        &[Sample::Int(1)],
        Want::Raised("TypeError('not iterable')"),
    ),
];

#[test]
fn builtins_raise_exceptions(rt: HostRuntime) -> Result<(), Fail> {
    check(&rt, rt.alloc(), EXCEPTIONS)?;
    Ok(())
}

static OTHERS: &[Row] = &[
    Row(0, &[], Want::Printed("")),
    Row(
        0,
        &[Sample::Text("a"), Sample::Int(1), Sample::None],
        Want::Printed("a 1 None"),
    ),
    Row(
        0,
        &[Sample::Chars(&['\u{e9}']), Sample::Text("a")],
        Want::PrintedChars(&['\u{e9}', ' ', 'a']),
    ),
    Row(
        0,
        &[Sample::Chars(&['\u{6f22}'])],
        Want::PrintedChars(&['\u{6f22}']),
    ),
    Row(9, &[Sample::Gen(7)], Want::Next(7)),
    Row(10, &[Sample::Range(5, 0, -4)], Want::Value("<iterator 0>")),
    Row(10, &[Sample::Text("a")], Want::Value("<iterator 1>")),
    Row(10, &[Sample::Iter(0)], Want::Value("<iterator 0>")),
    Row(9, &[Sample::Iter(0)], Want::Value("5")),
    Row(9, &[Sample::Iter(0)], Want::Value("1")),
    Row(9, &[Sample::Iter(0)], Want::Raised("StopIteration()")),
    Row(9, &[Sample::Iter(1)], Want::Value("'a'")),
];

#[test]
fn builtins_print_and_go_over_values(rt: HostRuntime) -> Result<(), Fail> {
    check(&rt, rt.alloc(), OTHERS)?;
    Ok(())
}
