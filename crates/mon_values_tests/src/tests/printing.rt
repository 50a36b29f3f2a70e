use super::sample::{Sample, build, is_text, prints_as, raised};
use mon_values::fault::Trouble;
use mon_values::print::{exc_repr_front, exc_text_of, repr, repr_front, text_of};
use mon_values::text::Text;
use mon_values::trouble::trouble_exc;
use mon_values::value::Value;
use std::alloc::{AllocError, Global};
use std::process::Abort;
use std::test::Fail;

/// A value, its `repr` and its `str`.
struct PrintRow(Sample, &'static str, &'static str);

fn print_holds(alloc: Global, row: &PrintRow) -> Result<bool, AllocError> {
    let v = build(alloc, &row.0)?;
    let printed = prints_as(alloc, &v, row.1)?;
    Ok(printed && is_text(alloc, &text_of(alloc, &v, &[])?, row.2)?)
}

fn check_print(rt: &impl Abort, alloc: Global, rows: &[PrintRow]) -> Result<(), AllocError> {
    for (i, row) in rows.iter().enumerate() {
        assert!(rt; print_holds(alloc, row)?, "row {i}");
    }
    Ok(())
}

static PLAIN_ROWS: &[PrintRow] = &[
    PrintRow(Sample::None, "None", "None"),
    PrintRow(Sample::Bool(true), "True", "True"),
    PrintRow(Sample::Bool(false), "False", "False"),
    PrintRow(
        Sample::Int(i64::MIN),
        "-9223372036854775808",
        "-9223372036854775808",
    ),
    PrintRow(Sample::Range(0, 5, 1), "range(0, 5)", "range(0, 5)"),
    PrintRow(
        Sample::Range(0, 5, -2),
        "range(0, 5, -2)",
        "range(0, 5, -2)",
    ),
    PrintRow(Sample::Builtin(1), "<built-in len>", "<built-in len>"),
    PrintRow(Sample::Builtin(14), "<built-in >", "<built-in >"),
    PrintRow(
        Sample::Class(14),
        "<class 'ValueError'>",
        "<class 'ValueError'>",
    ),
    PrintRow(Sample::Function(0), "<function >", "<function >"),
    PrintRow(Sample::Gen(7), "<generator 7>", "<generator 7>"),
    PrintRow(Sample::Iter(0), "<iterator 0>", "<iterator 0>"),
    PrintRow(Sample::Done, "", ""),
];

#[test]
fn plain_values_print_by_their_kinds(rt: HostRuntime) -> Result<(), Fail> {
    check_print(&rt, rt.alloc(), PLAIN_ROWS)?;
    Ok(())
}

static TEXT_ROWS: &[PrintRow] = &[
    PrintRow(Sample::Text(""), "''", ""),
    PrintRow(Sample::Text("a b"), "'a b'", "a b"),
    PrintRow(
        Sample::Text("a\\b'\n\r\t\x01\x7f"),
        "\"a\\\\b'\\n\\r\\t\\x01\\x7f\"",
        "a\\b'\n\r\t\x01\x7f",
    ),
    PrintRow(Sample::Text("'\""), "'\\'\"'", "'\""),
    PrintRow(Sample::Text("\""), "'\"'", "\""),
    PrintRow(
        Sample::Text("\x00\x0b\x1f\x7e"),
        "'\\x00\\x0b\\x1f~'",
        "\x00\x0b\x1f~",
    ),
];

#[test]
fn texts_print_with_escapes(rt: HostRuntime) -> Result<(), Fail> {
    check_print(&rt, rt.alloc(), TEXT_ROWS)?;
    Ok(())
}

static NESTED_ROWS: &[PrintRow] = &[
    PrintRow(Sample::Nones(0), "()", "()"),
    PrintRow(Sample::Lone("x"), "('x',)", "('x',)"),
    PrintRow(Sample::Pair(1, 2), "(1, 2)", "(1, 2)"),
    PrintRow(Sample::Nested(3), "(((),),)", "(((),),)"),
    PrintRow(Sample::Bare(14), "ValueError()", ""),
    PrintRow(Sample::Bare(16), "()", ""),
    PrintRow(
        Sample::RaisedPair(25),
        "(UnboundLocalError(\"name 'x' is not bound\"), None)",
        "(UnboundLocalError(\"name 'x' is not bound\"), None)",
    ),
    PrintRow(
        Sample::Raised(16),
        "OverflowError('value too large')",
        "value too large",
    ),
];

#[test]
fn tuples_and_exceptions_print_as_python_does(rt: HostRuntime) -> Result<(), Fail> {
    check_print(&rt, rt.alloc(), NESTED_ROWS)?;
    Ok(())
}

/// An exception of the machine, and its `repr`.
struct RaisedRow(Trouble, &'static str);

fn raised_holds(alloc: Global, row: &RaisedRow) -> Result<bool, AllocError> {
    let v = raised(alloc, row.0.0)?;
    prints_as(alloc, &v, row.1)
}

static RAISED_ROWS: &[RaisedRow] = &[
    RaisedRow(
        Trouble::UNSUPPORTED_OPERAND,
        "TypeError('unsupported operand')",
    ),
    RaisedRow(Trouble::NOT_COMPARABLE, "TypeError('not comparable')"),
    RaisedRow(Trouble::NOT_ITERABLE, "TypeError('not iterable')"),
    RaisedRow(Trouble::NOT_CALLABLE, "TypeError('not callable')"),
    RaisedRow(
        Trouble::WRONG_COUNT,
        "TypeError('wrong number of arguments')",
    ),
    RaisedRow(Trouble::WRONG_ARGUMENT, "TypeError('wrong argument')"),
    RaisedRow(Trouble::NOT_AN_EXCEPTION, "TypeError('not an exception')"),
    RaisedRow(
        Trouble::FIRST_SENT_VALUE,
        "TypeError('first sent value must be None')",
    ),
    RaisedRow(
        Trouble::ALREADY_EXECUTING,
        "ValueError('generator already executing')",
    ),
    RaisedRow(Trouble::INVALID_LITERAL, "ValueError('invalid literal')"),
    RaisedRow(
        Trouble::WRONG_NUMBER_OF_VALUES,
        "ValueError('wrong number of values')",
    ),
    RaisedRow(Trouble::STEP_IS_ZERO, "ValueError('step is zero')"),
    RaisedRow(Trouble::EMPTY_ARGUMENT, "ValueError('empty argument')"),
    RaisedRow(
        Trouble::DIVISION_BY_ZERO,
        "ZeroDivisionError('division by zero')",
    ),
    RaisedRow(
        Trouble::OUT_OF_RANGE,
        "OverflowError('integer out of range')",
    ),
    RaisedRow(Trouble::TOO_LARGE, "OverflowError('value too large')"),
    RaisedRow(
        Trouble::NESTED_TOO_DEEPLY,
        "RecursionError('value nested too deeply')",
    ),
    RaisedRow(
        Trouble::TOO_MANY_FRAMES,
        "RecursionError('too many frames')",
    ),
    RaisedRow(
        Trouble::INDEX_OUT_OF_RANGE,
        "IndexError('index out of range')",
    ),
    RaisedRow(Trouble::NO_SUCH_METHOD, "AttributeError('no such method')"),
    RaisedRow(
        Trouble::NOTHING_TO_RERAISE,
        "RuntimeError('no exception to re-raise')",
    ),
    RaisedRow(
        Trouble::RAISED_STOP_ITERATION,
        "RuntimeError('generator raised StopIteration')",
    ),
    RaisedRow(
        Trouble::IGNORED_GENERATOR_EXIT,
        "RuntimeError('generator ignored GeneratorExit')",
    ),
    RaisedRow(
        Trouble::NAME_NOT_DEFINED,
        "NameError(\"name 'x' is not defined\")",
    ),
    RaisedRow(
        Trouble::NAME_NOT_BOUND,
        "UnboundLocalError(\"name 'x' is not bound\")",
    ),
];

#[test]
fn exceptions_of_the_machine_have_their_texts(rt: HostRuntime) -> Result<(), Fail> {
    let alloc = rt.alloc();
    for (i, row) in RAISED_ROWS.iter().enumerate() {
        assert!(rt; raised_holds(alloc, row)?, "row {i}");
    }
    Ok(())
}

/// The `str` of the exception of a name of 41 characters, which is cut at 40.
fn long_name_text(alloc: Global) -> Result<Text, AllocError> {
    let exc = trouble_exc(alloc, Trouble(24), &['n'; 41])?;
    exc_text_of(alloc, &exc, &[])
}

#[test]
fn a_long_name_is_cut(rt: HostRuntime) -> Result<(), Fail> {
    let alloc = rt.alloc();
    let text = long_name_text(alloc)?;
    let want = "name 'nnnnnnnnnnnnnnnnnnnnnnnnnnnnnnnnnnnnnnnn' is not defined";
    assert!(rt; is_text(alloc, &text, want)?);
    Ok(())
}

fn named_repr(alloc: Global) -> Result<Text, AllocError> {
    let mut names = Vec::new(alloc);
    names.push(Text::from_ascii(alloc, "f")?)?;
    names.push(Text::from_chars(alloc, &['g'])?)?;
    repr(alloc, &Value::Function(1), names.as_slice())
}

#[test]
fn a_function_prints_its_name(rt: HostRuntime) -> Result<(), Fail> {
    let alloc = rt.alloc();
    let printed = named_repr(alloc)?;
    assert!(rt; is_text(alloc, &printed, "<function g>")?);
    Ok(())
}

/// A value, how many characters to print, and these.
struct FrontRow(Sample, usize, &'static str);

fn front_holds(alloc: Global, row: &FrontRow) -> Result<bool, AllocError> {
    let v = build(alloc, &row.0)?;
    let front = repr_front(alloc, &v, &[], row.1)?;
    let same = match &v {
        Value::Exc(exc) => is_text(alloc, &exc_repr_front(alloc, exc, &[], row.1)?, row.2)?,
        _ => true,
    };
    Ok(same && is_text(alloc, &front, row.2)?)
}

static FRONT_ROWS: &[FrontRow] = &[
    FrontRow(Sample::None, 0, ""),
    FrontRow(Sample::None, 3, "Non"),
    FrontRow(Sample::None, 4, "None"),
    FrontRow(Sample::Int(-120), 40, "-120"),
    FrontRow(Sample::Letters(4000), 4, "'aaa"),
    FrontRow(Sample::Text("\n\n"), 4, "'\\n\\"),
    FrontRow(Sample::Nones(4000), 10, "(None, Non"),
    FrontRow(Sample::Nested(3), 7, "(((),),"),
    FrontRow(Sample::Range(0, 5, 2), 12, "range(0, 5, "),
    FrontRow(Sample::Bare(14), 11, "ValueError("),
    FrontRow(Sample::Raised(16), 14, "OverflowError("),
];

#[test]
fn the_front_of_a_value_ends_at_its_limit(rt: HostRuntime) -> Result<(), Fail> {
    let alloc = rt.alloc();
    for (i, row) in FRONT_ROWS.iter().enumerate() {
        assert!(rt; front_holds(alloc, row)?, "row {i}");
    }
    Ok(())
}
