use mon_shared::{SharedBox, SharedItems};
use mon_values::fault::Trouble;
use mon_values::print::repr;
use mon_values::text::{Text, TextBuffer};
use mon_values::trouble::trouble_exc;
use mon_values::value::{Exc, Value};
use std::alloc::{AllocError, Global};

/// A value to build.
pub enum Sample {
    None,
    Bool(bool),
    Int(i64),
    Text(&'static str),
    /// A text of so many `a`.
    Letters(u64),
    /// A tuple of so many `None`.
    Nones(u64),
    /// Tuples of one item around each other, so many deep; the innermost is empty.
    Nested(u64),
    Pair(i64, i64),
    Lone(&'static str),
    TextPair(&'static str, &'static str),
    /// A tuple of True and of None.
    TruePair,
    /// A tuple of an exception of the machine, by its row, and of None.
    RaisedPair(u8),
    /// An exception of the machine, by its row.
    Raised(u8),
    /// An exception of this class without an argument.
    Bare(u8),
    /// An exception of this class around as many tuples as `Nested` has.
    NestedExc(u8, u64),
    Range(i64, i64, i64),
    Function(u16),
    Builtin(u8),
    Class(u8),
    Gen(u32),
    Iter(u32),
    Done,
}

fn text(alloc: Global, ascii: &str) -> Result<Value, AllocError> {
    Ok(Value::Text(Text::from_ascii(alloc, ascii)?))
}

fn letters(alloc: Global, count: u64) -> Result<Value, AllocError> {
    let mut text = TextBuffer::new(alloc);
    for _turn in 0..count {
        text.push('a')?;
    }
    Ok(Value::Text(text.into_text()?))
}

fn nones(alloc: Global, count: u64) -> Result<Value, AllocError> {
    let mut items = Vec::new(alloc);
    for _turn in 0..count {
        items.push(Value::None)?;
    }
    Ok(Value::Tuple(SharedItems::from_vec(items)?))
}

fn lone(alloc: Global, a: Value) -> Result<Value, AllocError> {
    let mut items = Vec::new(alloc);
    items.push(a)?;
    Ok(Value::Tuple(SharedItems::from_vec(items)?))
}

fn pair(alloc: Global, a: Value, b: Value) -> Result<Value, AllocError> {
    let mut items = Vec::new(alloc);
    items.push(a)?;
    items.push(b)?;
    Ok(Value::Tuple(SharedItems::from_vec(items)?))
}

fn nested(alloc: Global, depth: u64) -> Result<Value, AllocError> {
    let mut deep = Value::Tuple(SharedItems::new());
    for _turn in 1..depth {
        deep = lone(alloc, deep)?;
    }
    Ok(deep)
}

fn text_pair(alloc: Global, a: &str, b: &str) -> Result<Value, AllocError> {
    let a = text(alloc, a)?;
    let b = text(alloc, b)?;
    pair(alloc, a, b)
}

pub(super) fn raised(alloc: Global, row: u8) -> Result<Value, AllocError> {
    Ok(Value::Exc(trouble_exc(alloc, Trouble(row), &['x'])?))
}

fn nested_exc(alloc: Global, class: u8, depth: u64) -> Result<Value, AllocError> {
    let arg = Some(SharedBox::new(alloc, nested(alloc, depth)?)?);
    Ok(Value::Exc(Exc { class, arg }))
}

pub(super) fn build(alloc: Global, sample: &Sample) -> Result<Value, AllocError> {
    match sample {
        Sample::None => Ok(Value::None),
        Sample::Bool(b) => Ok(Value::Bool(*b)),
        Sample::Int(n) => Ok(Value::Int(*n)),
        Sample::Text(ascii) => text(alloc, ascii),
        Sample::Letters(count) => letters(alloc, *count),
        Sample::Nones(count) => nones(alloc, *count),
        Sample::Nested(depth) => nested(alloc, *depth),
        Sample::Pair(a, b) => pair(alloc, Value::Int(*a), Value::Int(*b)),
        Sample::Lone(ascii) => lone(alloc, text(alloc, ascii)?),
        Sample::TextPair(a, b) => text_pair(alloc, a, b),
        Sample::TruePair => pair(alloc, Value::Bool(true), Value::None),
        Sample::RaisedPair(row) => pair(alloc, raised(alloc, *row)?, Value::None),
        Sample::Raised(row) => raised(alloc, *row),
        Sample::Bare(class) => Ok(Value::Exc(Exc {
            class: *class,
            arg: None,
        })),
        Sample::NestedExc(class, depth) => nested_exc(alloc, *class, *depth),
        Sample::Range(start, stop, step) => Ok(Value::Range(*start, *stop, *step)),
        Sample::Function(k) => Ok(Value::Function(*k)),
        Sample::Builtin(k) => Ok(Value::Builtin(*k)),
        Sample::Class(k) => Ok(Value::ExcClass(*k)),
        Sample::Gen(k) => Ok(Value::Gen(*k)),
        Sample::Iter(k) => Ok(Value::Iter(*k)),
        Sample::Done => Ok(Value::Done(None)),
    }
}

/// What a call should give: a value that prints so or that has this weight or depth, or an exception by its row.
pub enum Want {
    Prints(&'static str),
    Weighs(u64),
    Nests(u64),
    Raises(u8),
}

pub(super) fn is_text(alloc: Global, printed: &Text, want: &str) -> Result<bool, AllocError> {
    Ok(printed.chars() == Text::from_ascii(alloc, want)?.chars())
}

pub(super) fn prints_as(alloc: Global, v: &Value, want: &str) -> Result<bool, AllocError> {
    is_text(alloc, &repr(alloc, v, &[])?, want)
}

pub(super) fn meets(alloc: Global, v: &Value, want: &Want) -> Result<bool, AllocError> {
    match want {
        Want::Prints(ascii) => prints_as(alloc, v, ascii),
        Want::Weighs(weight) => Ok(v.spend(*weight) == Some(0)),
        Want::Nests(depth) => {
            Ok(v.nests_at_most(*depth) && !v.nests_at_most(depth.saturating_sub(1)))
        }
        Want::Raises(_) => Ok(false),
    }
}

pub(super) fn raises(trouble: Trouble, want: &Want) -> bool {
    match want {
        Want::Raises(row) => trouble.0 == *row,
        _ => false,
    }
}
