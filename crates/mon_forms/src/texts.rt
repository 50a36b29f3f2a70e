//! What listings and reports are made of.

ghost use Rattle.std.specs.Prelude.{◌≡◌, ◌++◌, IfOk, OnOk, string_bytes, encode_utf8_all};
ghost use Rattle.std.specs.Fmt.{decimal, signed_decimal};
ghost use Rattle.mon_code.specs.Programs.{Parts};
ghost use Rattle.mon_forms.specs.Texts as spec;

use mon_code::Program;
use mon_values::print::repr;
use mon_values::text::Text;
use mon_values::value::Value;
use std::alloc::{AllocError, Global};
use thiserror::Error;

/// Why a text was not printed.
#[derive(Clone, Copy, Debug, PartialEq, Eq, Error)]
pub enum PrintFault {
    #[error("out of memory")]
    Memory,
}

impl From<AllocError> for PrintFault {
    fn from(_: AllocError) -> PrintFault {
        PrintFault::Memory
    }
}

/// Writes characters as UTF-8.
pub fn write_chars(out: &mut String, chars: &[char]) -> Result<(), AllocError>
    ensures { OnOk result (string_bytes out.new ≡ string_bytes out.old ++ encode_utf8_all chars.now) }
{
    for c in chars {
        out.push(*c)?;
    }
    Ok(())
}

/// Writes a number in decimal digits.
pub fn write_number(out: &mut String, n: u64) -> Result<(), AllocError>
    ensures { OnOk result (string_bytes out.new ≡ string_bytes out.old ++ decimal n) }
{
    out.push_str(itoa::Buffer::new().format(n))
}

/// Writes an integer in decimal digits, behind a `-` where it is negative.
pub fn write_integer(out: &mut String, n: i64) -> Result<(), AllocError>
    ensures { OnOk result (string_bytes out.new ≡ string_bytes out.old ++ signed_decimal n) }
{
    out.push_str(itoa::Buffer::new().format(n))
}

/// Writes a number behind a space.
pub fn write_spaced(out: &mut String, n: u64) -> Result<(), AllocError>
    ensures { OnOk result (string_bytes out.new ≡ string_bytes out.old ++ spec.number_text n) }
{
    out.push_str(" ")?;
    write_number(out, n)
}

/// Writes numbers, each behind a space.
pub fn write_numbers(out: &mut String, numbers: &[u64]) -> Result<(), AllocError>
    ensures { OnOk result (string_bytes out.new ≡ string_bytes out.old ++ spec.numbers_text numbers.now) }
{
    for n in numbers {
        write_spaced(out, *n)?;
    }
    Ok(())
}

/// Writes the name at a place of a list; nothing where there is none.
pub fn write_name(out: &mut String, names: &[Text], place: usize) -> Result<(), AllocError>
    ensures { OnOk result (string_bytes out.new ≡ string_bytes out.old ++ spec.name_text names.now place) }
{
    match names.get(place) {
        None => Ok(()),
        Some(name) => write_chars(out, name.chars()),
    }
}

/// Writes the `repr` of a value, with the names of the program's functions.
pub fn write_value(
    alloc: Global,
    out: &mut String,
    program: &Program,
    value: &Value,
) -> Result<(), AllocError>
    ensures { OnOk result (string_bytes out.new ≡ string_bytes out.old ++ spec.value_text program.now value.now) }
{
    let text = repr(alloc, value, program.names.as_slice())?;
    write_chars(out, text.chars())
}

fn encoded(alloc: Global, chars: &[char]) -> Result<String, AllocError>
    ensures { IfOk result (λ text. string_bytes text ≡ encode_utf8_all chars.now) }
{
    let mut text = String::new(alloc);
    write_chars(&mut text, chars)?;
    Ok(text)
}

/// The names of the codes, as bytes.
pub fn code_names(alloc: Global, program: &Program) -> Result<Vec<String>, AllocError>
    ensures { IfOk result (λ names. spec.AreNames program.now names.items) }
{
    let mut names = Vec::new(alloc);
    for name in program.names.as_slice() {
        names.push(encoded(alloc, name.chars())?)?;
    }
    Ok(names)
}

/// The name of a code among those of all; nothing where there is none.
fn name_of(names: &[String], code: u16) -> &str
    ensures { (p : Parts) → spec.AreNames p names.now → result.now ≡ spec.code_text p code }
{
    match names.get(code as usize) {
        None => "",
        Some(name) => name.as_str(),
    }
}

/// Writes the name of a code among those of all; nothing where there is none.
pub fn write_code(out: &mut String, names: &[String], code: u16) -> Result<(), AllocError>
    ensures { OnOk result ((p : Parts) → spec.AreNames p names.now → string_bytes out.new ≡ string_bytes out.old ++ spec.code_text p code) }
{
    out.push_str(name_of(names, code))
}
