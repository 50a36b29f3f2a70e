ghost use Rattle.std.specs.Prelude.{◌≡◌, ◌<◌, ◌^◌, ◌++◌, IfOk, OnOk, string_bytes};
ghost use Rattle.std.specs.Option.{option_copied};
ghost use Rattle.mon_code.specs.Programs.{op_at as op_in_place};
ghost use Rattle.mon_forms.specs.Listing as spec;
ghost use Rattle.mon_forms.specs.Texts.{each_from};
ghost use Rattle.mon_values.specs.Classes.{builtin_name as builtin_text};

use crate::opcodes::{ArgumentKind, argument_kind, arith_word, cmp_word, op_name};
use crate::texts::{PrintFault, write_name, write_number, write_value};
use mon_code::{Code, Location, Program, arith_op_of_number, cmp_op_of_number};
use mon_events::{Op, op_of_number};
use mon_values::class::builtin_name;
use mon_values::operator::{ArithOp, CmpOp};
use mon_values::value::Value;
use std::alloc::{AllocError, Global};

fn write_constant(
    alloc: Global,
    out: &mut String,
    program: &Program,
    constant: Option<&Value>,
) -> Result<(), AllocError>
    ensures { OnOk result (string_bytes out.new ≡ string_bytes out.old ++ spec.constant_text program.now (option_copied constant.entry)) }
{
    match constant {
        None => Ok(()),
        Some(value) => write_value(alloc, out, program, value),
    }
}

#[tactic(auto, using(crate::proofs::Listings::no_builtin))]
fn write_method(out: &mut String, number: u32) -> Result<(), AllocError>
    ensures { OnOk result (string_bytes out.new ≡ string_bytes out.old ++ builtin_text number) }
{
    match u8::try_from(number) {
        Err(_) => Ok(()),
        Ok(number) => out.push_str(builtin_name(number)),
    }
}

fn write_arith(out: &mut String, op: Option<ArithOp>) -> Result<(), AllocError>
    ensures { OnOk result (string_bytes out.new ≡ string_bytes out.old ++ spec.arith_text op) }
{
    match op {
        None => Ok(()),
        Some(op) => out.push_str(arith_word(op)),
    }
}

fn write_cmp(out: &mut String, op: Option<CmpOp>) -> Result<(), AllocError>
    ensures { OnOk result (string_bytes out.new ≡ string_bytes out.old ++ spec.cmp_text op) }
{
    match op {
        None => Ok(()),
        Some(op) => out.push_str(cmp_word(op)),
    }
}

/// Writes an argument of this kind, behind a space.
fn write_argument(
    alloc: Global,
    out: &mut String,
    program: &Program,
    code: &Code,
    kind: ArgumentKind,
    argument: u32,
) -> Result<(), AllocError>
    ensures { OnOk result (string_bytes out.new ≡ string_bytes out.old ++ spec.argument_text program.now code.now kind argument) }
{
    if kind == ArgumentKind::Nothing {
        return Ok(());
    }
    out.push_str(" ")?;
    match kind {
        ArgumentKind::Nothing => Ok(()),
        ArgumentKind::Constant => {
            write_constant(alloc, out, program, code.constants.get(argument as usize))
        }
        ArgumentKind::Local => write_name(out, code.locals.as_slice(), argument as usize),
        ArgumentKind::Global => write_name(out, code.globals.as_slice(), argument as usize),
        ArgumentKind::Method => write_method(out, argument),
        ArgumentKind::Arithmetic => write_arith(out, arith_op_of_number(argument)),
        ArgumentKind::Comparison => write_cmp(out, cmp_op_of_number(argument)),
        ArgumentKind::Target => write_number(out, 2 * u64::from(argument)),
        ArgumentKind::Number => write_number(out, u64::from(argument)),
    }
}

/// Writes an opcode with its argument.
fn write_op(
    alloc: Global,
    out: &mut String,
    program: &Program,
    code: &Code,
    op: Option<Op>,
    argument: u32,
) -> Result<(), AllocError>
    ensures { OnOk result (string_bytes out.new ≡ string_bytes out.old ++ spec.op_text program.now code.now op argument) }
{
    match op {
        None => Ok(()),
        Some(op) => {
            out.push_str(op_name(op))?;
            write_argument(alloc, out, program, code, argument_kind(op), argument)
        }
    }
}

/// Writes the line of the file; `-` where there is none.
fn write_line(out: &mut String, line: Option<u32>) -> Result<(), AllocError>
    ensures { OnOk result (string_bytes out.new ≡ string_bytes out.old ++ spec.line_text line) }
{
    match line {
        None => out.push_str("-"),
        Some(line) => write_number(out, u64::from(line)),
    }
}

/// Writes the offset and the line of a location at an index.
fn write_front(out: &mut String, at: usize, line: Option<u32>) -> Result<(), AllocError>
    requires { at < 2 ^ 63 }
    ensures { OnOk result (string_bytes out.new ≡ string_bytes out.old ++ spec.location_front at line) }
{
    write_number(out, 2 * at as u64)?;
    out.push_str(" ")?;
    write_line(out, line)?;
    out.push_str(" ")
}

/// The base opcode at an index of the code whose first location is given.
fn op_at(bases: &[u8], first: u32, at: usize) -> Option<Op>
    requires { at < 2 ^ 63 }
    ensures { result ≡ op_in_place bases.now first at }
{
    op_of_number(*bases.get(first as usize + at)?)
}

/// Writes the line of a location at an index.
fn write_location(
    alloc: Global,
    out: &mut String,
    program: &Program,
    code: &Code,
    at: usize,
    op: Option<Op>,
    location: &Location,
) -> Result<(), AllocError>
    requires few { at < 2 ^ 63 }
    requires base { op ≡ op_in_place program.now.bases code.now.first at }
    ensures { OnOk result (string_bytes out.new ≡ string_bytes out.old ++ spec.location_line program.now code.now at location.now) }
{
    write_front(out, at, location.line)?;
    write_op(alloc, out, program, code, op, location.argument)?;
    out.push_str("\n")
}

fn write_locations(
    alloc: Global,
    out: &mut String,
    program: &Program,
    bases: &[u8],
    code: &Code,
) -> Result<(), AllocError>
    requires { bases.now ≡ program.now.bases }
    ensures { OnOk result (string_bytes out.new ≡ string_bytes out.old ++ each_from (spec.location_line program.now code.now) 0 code.now.locations) }
{
    for (at, location) in code.locations.as_slice().iter().enumerate() {
        let op = op_at(bases, code.first, at);
        write_location(alloc, out, program, code, at, op, location)?;
    }
    Ok(())
}

/// Writes the line of a code, and those of its locations.
fn write_code(
    alloc: Global,
    out: &mut String,
    program: &Program,
    bases: &[u8],
    number: usize,
    code: &Code,
) -> Result<(), AllocError>
    requires { bases.now ≡ program.now.bases }
    ensures { OnOk result (string_bytes out.new ≡ string_bytes out.old ++ spec.code_lines program.now number code.now) }
{
    out.push_str("code ")?;
    write_name(out, program.names.as_slice(), number)?;
    out.push_str("\n")?;
    write_locations(alloc, out, program, bases, code)
}

fn write_codes(
    alloc: Global,
    out: &mut String,
    program: &Program,
    bases: &[u8],
) -> Result<(), AllocError>
    requires { bases.now ≡ program.now.bases }
    ensures { OnOk result (string_bytes out.new ≡ string_bytes out.old ++ spec.listing program.now) }
{
    for (number, code) in program.codes.as_slice().iter().enumerate() {
        write_code(alloc, out, program, bases, number, code)?;
    }
    Ok(())
}

/// The listing of a program, as UTF-8, whose base opcodes are handed out where it is compiled. For each code a line `code NAME`,
/// and for each of its locations a line `OFFSET LINE OP ARG`: LINE is `-` where there is none, and ARG is left out with its
/// space where the opcode has none. PrintFault: there is not enough memory.
pub fn print_dis(alloc: Global, program: &Program, bases: &[u8]) -> Result<Vec<u8>, PrintFault>
    requires { bases.now ≡ program.now.bases }
    ensures { IfOk result (λ v. v.items ≡ spec.listing program.now) }
{
    let mut out = String::new(alloc);
    write_codes(alloc, &mut out, program, bases)?;
    Ok(out.into_bytes())
}
