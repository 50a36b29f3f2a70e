ghost use Rattle.std.specs.Prelude.{◌≡◌, ◌==◌, ◌<◌, map, take, IfOk, OnOk};
ghost use Rattle.std.specs.Fmt.{decimal, signed_decimal};
ghost use Rattle.std.specs.List.{list_any};
ghost use Rattle.mon_values.specs.Classes.{name_at};
ghost use Rattle.mon_values.specs.Limits.{written};
ghost use Rattle.mon_values.specs.Printing as spec;

use crate::class::{builtin_name, class_name};
use crate::limited::LimitedBuffer;
use crate::text::Text;
use crate::value::{Exc, Value};
use std::alloc::{AllocError, Global};

/// The name of a function, by its number; empty where there is none.
fn name_of(names: &[Text], number: u16) -> &[char]
    ensures { result.now ≡ name_at names.now number }
{
    match names.get(number as usize) {
        Some(name) => name.chars(),
        None => &[],
    }
}

fn write_unsigned(out: &mut LimitedBuffer, n: u32) -> Result<(), AllocError>
    ensures { OnOk result (out.new ≡ written out.old (decimal n)) }
{
    out.append_ascii(itoa::Buffer::new().format(n))
}

fn write_signed(out: &mut LimitedBuffer, n: i64) -> Result<(), AllocError>
    ensures { OnOk result (out.new ≡ written out.old (signed_decimal n)) }
{
    out.append_ascii(itoa::Buffer::new().format(n))
}

/// A digit from 0 to 15 as a lower-case letter or a digit.
fn hex_digit(n: u8) -> char
    requires { n < 16 }
    ensures { result ≡ spec.hex_digit n }
{
    if n < 10 {
        (b'0' + n) as char
    } else {
        (b'a' + (n - 10)) as char
    }
}

/// A character as it stands between such quotes.
#[tactic(auto, using(crate::proofs::Limits::written_then))]
fn write_escaped(out: &mut LimitedBuffer, quote: char, c: char) -> Result<(), AllocError>
    ensures { OnOk result (out.new ≡ written out.old (spec.escaped quote c)) }
{
    if c == '\\' || c == quote {
        out.push('\\')?;
        out.push(c)
    } else if c == '\n' {
        out.append_ascii("\\n")
    } else if c == '\r' {
        out.append_ascii("\\r")
    } else if c == '\t' {
        out.append_ascii("\\t")
    } else if c < ' ' || c == '\u{7f}' {
        let code = c as u8;
        out.append_ascii("\\x")?;
        out.push(hex_digit(code / 16))?;
        out.push(hex_digit(code % 16))
    } else {
        out.push(c)
    }
}

fn has_char(text: &[char], wanted: char) -> bool
    ensures { result ≡ list_any (λ c. c == wanted) text.now }
{
    text.iter().any(|c| *c == wanted)
}

/// The quote that a text prints between.
fn quote_of(text: &[char]) -> char
    ensures { result ≡ spec.quote_of text.now }
{
    if has_char(text, '\'') && !has_char(text, '"') {
        '"'
    } else {
        '\''
    }
}

#[tactic(auto, using(crate::proofs::Limits::written_then))]
fn write_text(out: &mut LimitedBuffer, text: &[char]) -> Result<(), AllocError>
    ensures { OnOk result (out.new ≡ written out.old (spec.text_repr text.now)) }
{
    let quote = quote_of(text);
    write_quoted(out, quote, text)
}

/// A text between quotes.
#[tactic(auto, using(crate::proofs::Limits::written_then))]
fn write_quoted(out: &mut LimitedBuffer, quote: char, text: &[char]) -> Result<(), AllocError>
    ensures { OnOk result (out.new ≡ written out.old (spec.quoted quote text.now)) }
{
    out.push(quote)?;
    for c in text {
        if out.is_full() {
            return Ok(());
        }
        write_escaped(out, quote, *c)?;
    }
    out.push(quote)
}

/// The step of a range, where it is not 1.
#[tactic(auto, using(crate::proofs::Tables::step_shown, crate::proofs::Limits::written_then, crate::proofs::Limits::written_none))]
fn write_step(out: &mut LimitedBuffer, step: i64) -> Result<(), AllocError>
    ensures { OnOk result (out.new ≡ written out.old (spec.step_repr step)) }
{
    if step == 1 {
        return Ok(());
    }
    out.append_ascii(", ")?;
    write_signed(out, step)
}

#[tactic(auto, using(crate::proofs::Limits::written_then))]
fn write_range(out: &mut LimitedBuffer, start: i64, stop: i64, step: i64) -> Result<(), AllocError>
    ensures { OnOk result (out.new ≡ written out.old (spec.range_repr start stop step)) }
{
    out.append_ascii("range(")?;
    write_signed(out, start)?;
    out.append_ascii(", ")?;
    write_signed(out, stop)?;
    write_step(out, step)?;
    out.append_ascii(")")
}

#[tactic(auto, using(crate::proofs::Limits::written_then))]
fn write_function(out: &mut LimitedBuffer, names: &[Text], number: u16) -> Result<(), AllocError>
    ensures { OnOk result (out.new ≡ written out.old (spec.function_repr names.now number)) }
{
    out.append_ascii("<function ")?;
    out.append(name_of(names, number))?;
    out.append_ascii(">")
}

#[tactic(auto, using(crate::proofs::Limits::written_then))]
fn write_builtin(out: &mut LimitedBuffer, number: u8) -> Result<(), AllocError>
    ensures { OnOk result (out.new ≡ written out.old (spec.builtin_repr number)) }
{
    out.append_ascii("<built-in ")?;
    out.append_ascii(builtin_name(number))?;
    out.append_ascii(">")
}

#[tactic(auto, using(crate::proofs::Limits::written_then))]
fn write_class(out: &mut LimitedBuffer, number: u8) -> Result<(), AllocError>
    ensures { OnOk result (out.new ≡ written out.old (spec.class_repr number)) }
{
    out.append_ascii("<class '")?;
    out.append_ascii(class_name(number))?;
    out.append_ascii("'>")
}

#[tactic(auto, using(crate::proofs::Limits::written_then))]
fn write_generator(out: &mut LimitedBuffer, number: u32) -> Result<(), AllocError>
    ensures { OnOk result (out.new ≡ written out.old (spec.generator_repr number)) }
{
    out.append_ascii("<generator ")?;
    write_unsigned(out, number)?;
    out.append_ascii(">")
}

#[tactic(auto, using(crate::proofs::Limits::written_then))]
fn write_iterator(out: &mut LimitedBuffer, number: u32) -> Result<(), AllocError>
    ensures { OnOk result (out.new ≡ written out.old (spec.iterator_repr number)) }
{
    out.append_ascii("<iterator ")?;
    write_unsigned(out, number)?;
    out.append_ascii(">")
}

/// The items of a tuple.
#[cycle(repr)]
fn write_items(out: &mut LimitedBuffer, items: &[Value], names: &[Text]) -> Result<(), AllocError>
    ensures { OnOk result (out.new ≡ written out.old (spec.joined (map (spec.printed names.now) items.now))) }
{
    for (i, item) in items.iter().enumerate() {
        if out.is_full() {
            return Ok(());
        }
        item.write_repr(out, names)?;
        if i + 1 < items.len() {
            out.append_ascii(", ")?;
        }
    }
    Ok(())
}

/// The end of a tuple of so many items.
fn write_tuple_end(out: &mut LimitedBuffer, count: usize) -> Result<(), AllocError>
    ensures { OnOk result (out.new ≡ written out.old (spec.tuple_end count)) }
{
    out.append_ascii(if count == 1 { ",)" } else { ")" })
}

impl Value {
    ghost use Rattle.std.specs.Prelude.{◌≡◌, OnOk};
    ghost use Rattle.mon_values.specs.Limits.{written};
    ghost use Rattle.mon_values.specs.Printing as spec;

    #[cycle(repr)]
    #[tactic(auto, using(crate::proofs::Limits::written_then, crate::proofs::Limits::written_none))]
    fn write_repr(&self, out: &mut LimitedBuffer, names: &[Text]) -> Result<(), AllocError>
        ensures { OnOk result (out.new ≡ written out.old (spec.repr_of names.now self.now)) }
    {
        match self {
            Value::None => out.append_ascii("None"),
            Value::Bool(true) => out.append_ascii("True"),
            Value::Bool(false) => out.append_ascii("False"),
            Value::Int(n) => write_signed(out, *n),
            Value::Text(text) => write_text(out, text.chars()),
            Value::Tuple(items) => {
                out.append_ascii("(")?;
                write_items(out, items.as_slice(), names)?;
                write_tuple_end(out, items.len())
            }
            Value::Function(k) => write_function(out, names, *k),
            Value::Builtin(k) => write_builtin(out, *k),
            Value::ExcClass(k) => write_class(out, *k),
            Value::Exc(exc) => exc.write_repr(out, names),
            Value::Gen(k) => write_generator(out, *k),
            Value::Iter(k) => write_iterator(out, *k),
            Value::Range(start, stop, step) => write_range(out, *start, *stop, *step),
            Value::Done(_) => Ok(()),
        }
    }
}

impl Exc {
    ghost use Rattle.std.specs.Prelude.{◌≡◌, OnOk};
    ghost use Rattle.mon_values.specs.Limits.{written};
    ghost use Rattle.mon_values.specs.Printing as spec;

    #[cycle(repr)]
    #[tactic(auto, using(crate::proofs::Limits::written_then, crate::proofs::Limits::written_none))]
    fn write_repr(&self, out: &mut LimitedBuffer, names: &[Text]) -> Result<(), AllocError>
        ensures { OnOk result (out.new ≡ written out.old (spec.exc_repr_of names.now self.now)) }
    {
        out.append_ascii(class_name(self.class))?;
        out.append_ascii("(")?;
        if let Some(arg) = &self.arg {
            arg.get().write_repr(out, names)?;
        }
        out.append_ascii(")")
    }
}

/// The `repr` of a value. The name of function k is the k-th of `names`, from 0, and empty where there is none.
#[tactic(auto, using(crate::proofs::Limits::all_written))]
pub fn repr(alloc: Global, v: &Value, names: &[Text]) -> Result<Text, AllocError>
    ensures { IfOk result (λ text. text ≡ spec.repr_of names.now v.now) }
{
    let mut out = LimitedBuffer::new(alloc, usize::MAX);
    v.write_repr(&mut out, names)?;
    out.into_text()
}

/// The first `limit` characters of the `repr` of a value, with `names` as there. Printing stops at them.
#[tactic(auto, using(crate::proofs::Limits::front_written))]
pub fn repr_front(
    alloc: Global,
    v: &Value,
    names: &[Text],
    limit: usize,
) -> Result<Text, AllocError>
    ensures { IfOk result (λ text. text ≡ take limit (spec.repr_of names.now v.now)) }
{
    let mut out = LimitedBuffer::new(alloc, limit);
    v.write_repr(&mut out, names)?;
    out.into_text()
}

/// The first `limit` characters of the `repr` of an exception, likewise.
#[tactic(auto, using(crate::proofs::Limits::front_written))]
pub fn exc_repr_front(
    alloc: Global,
    exc: &Exc,
    names: &[Text],
    limit: usize,
) -> Result<Text, AllocError>
    ensures { IfOk result (λ text. text ≡ take limit (spec.exc_repr_of names.now exc.now)) }
{
    let mut out = LimitedBuffer::new(alloc, limit);
    exc.write_repr(&mut out, names)?;
    out.into_text()
}

/// The `str` of a value: a text itself, that of an exception's argument, else its `repr`, with `names` as there.
#[cycle(text_of)]
pub fn text_of(alloc: Global, v: &Value, names: &[Text]) -> Result<Text, AllocError>
    ensures { IfOk result (λ text. text ≡ spec.str_of names.now v.now) }
{
    match v {
        Value::Text(text) => text.copy(),
        Value::Exc(exc) => exc_text_of(alloc, exc, names),
        _ => repr(alloc, v, names),
    }
}

/// The `str` of an exception: that of its argument, or the empty text.
#[cycle(text_of)]
pub fn exc_text_of(alloc: Global, exc: &Exc, names: &[Text]) -> Result<Text, AllocError>
    ensures { IfOk result (λ text. text ≡ spec.exc_str_of names.now exc.now) }
{
    match &exc.arg {
        Some(arg) => text_of(alloc, arg.get(), names),
        None => Ok(Text::new()),
    }
}
