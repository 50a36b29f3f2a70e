//! Codes as text.

use super::compiled;
use mon_code::{Code, Handler, Location};
use mon_events::{Op, op_of_number};
use mon_values::text::Text;
use mon_values::value::Value;
use std::alloc::{AllocError, Global};
use std::fmt::Write;
use std::test::Fail;

/// The opcodes by their numbers.
const NAMES: [&str; 37] = [
    "NOP",
    "RESUME",
    "LOAD_CONST",
    "LOAD_FAST",
    "STORE_FAST",
    "DELETE_FAST",
    "LOAD_GLOBAL",
    "LOAD_METHOD",
    "BINARY_OP",
    "COMPARE_OP",
    "CONTAINS_OP",
    "IS_OP",
    "UNARY_NEGATIVE",
    "UNARY_NOT",
    "BUILD_TUPLE",
    "UNPACK_SEQUENCE",
    "BINARY_SUBSCR",
    "COPY",
    "SWAP",
    "POP_TOP",
    "JUMP_FORWARD",
    "JUMP_BACKWARD",
    "POP_JUMP_IF_FALSE",
    "POP_JUMP_IF_TRUE",
    "GET_ITER",
    "FOR_ITER",
    "POP_JUMP_IF_DONE",
    "END_FOR",
    "CALL",
    "RETURN_VALUE",
    "RETURN_GENERATOR",
    "YIELD_VALUE",
    "RAISE_VARARGS",
    "RERAISE",
    "PUSH_EXC_INFO",
    "CHECK_EXC_MATCH",
    "POP_EXCEPT",
];

/// The operators of BINARY_OP, and those of COMPARE_OP, by their numbers.
const BINARY: [&str; 5] = ["+", "-", "*", "//", "%"];

const COMPARE: [&str; 6] = ["==", "!=", "<", "<=", ">", ">="];

pub(super) fn show_text(out: &mut String, text: &Text) -> Result<(), AllocError> {
    for c in text.chars() {
        out.push(*c)?;
    }
    Ok(())
}

#[cycle(show_value)]
pub(super) fn show_value(out: &mut String, value: &Value) -> Result<(), AllocError> {
    match value {
        Value::None => write!(out, "None"),
        Value::Bool(true) => write!(out, "True"),
        Value::Bool(false) => write!(out, "False"),
        Value::Int(n) => write!(out, "{n}"),
        Value::Text(text) => {
            write!(out, "'")?;
            show_text(out, text)?;
            write!(out, "'")
        }
        Value::Tuple(parts) => {
            write!(out, "(")?;
            show_parts(out, parts.as_slice())?;
            write!(out, ")")
        }
        _ => write!(out, "?"),
    }
}

#[cycle(show_value)]
fn show_parts(out: &mut String, parts: &[Value]) -> Result<(), AllocError> {
    for part in parts {
        show_value(out, part)?;
        write!(out, ",")?;
    }
    Ok(())
}

fn show_name(out: &mut String, names: &[Text], number: u32) -> Result<(), AllocError> {
    match names.get(number as usize) {
        Some(name) => show_text(out, name),
        None => write!(out, "?"),
    }
}

fn show_constant(out: &mut String, constants: &[Value], number: u32) -> Result<(), AllocError> {
    match constants.get(number as usize) {
        Some(value) => show_value(out, value),
        None => write!(out, "?"),
    }
}

fn show_word(out: &mut String, words: &[&str], number: u32) -> Result<(), AllocError> {
    match words.get(number as usize) {
        Some(word) => out.push_str(word),
        None => write!(out, "?"),
    }
}

fn show_method(out: &mut String, number: u32) -> Result<(), AllocError> {
    match number {
        11 => write!(out, "send"),
        12 => write!(out, "throw"),
        13 => write!(out, "close"),
        _ => write!(out, "?"),
    }
}

fn show_offset(out: &mut String, index: u32) -> Result<(), AllocError> {
    let offset = u64::from(index) * 2;
    write!(out, "{offset}")
}

fn has_argument(op: Op) -> bool {
    !matches!(
        op,
        Op::Nop
            | Op::UnaryNegative
            | Op::UnaryNot
            | Op::BinarySubscr
            | Op::PopTop
            | Op::GetIter
            | Op::ForIter
            | Op::EndFor
            | Op::ReturnValue
            | Op::ReturnGenerator
            | Op::YieldValue
            | Op::Reraise
            | Op::PushExcInfo
            | Op::CheckExcMatch
            | Op::PopExcept
    )
}

fn show_argument(out: &mut String, code: &Code, op: Op, argument: u32) -> Result<(), AllocError> {
    match op {
        Op::LoadConst => show_constant(out, code.constants.as_slice(), argument),
        Op::LoadFast | Op::StoreFast | Op::DeleteFast => {
            show_name(out, code.locals.as_slice(), argument)
        }
        Op::LoadGlobal => show_name(out, code.globals.as_slice(), argument),
        Op::LoadMethod => show_method(out, argument),
        Op::BinaryOp => show_word(out, BINARY.as_slice(), argument),
        Op::CompareOp => show_word(out, COMPARE.as_slice(), argument),
        Op::JumpForward | Op::JumpBackward => show_offset(out, argument),
        Op::PopJumpIfFalse | Op::PopJumpIfTrue => show_offset(out, argument),
        Op::PopJumpIfDone => show_offset(out, argument),
        _ => write!(out, "{argument}"),
    }
}

fn show_line(out: &mut String, line: Option<u32>) -> Result<(), AllocError> {
    match line {
        Some(line) => write!(out, " {line} "),
        None => write!(out, " - "),
    }
}

/// The line of a location, its opcode and its argument.
fn show_instruction(
    out: &mut String,
    code: &Code,
    base: u8,
    location: &Location,
) -> Result<(), AllocError> {
    show_line(out, location.line)?;
    show_word(out, NAMES.as_slice(), u32::from(base))?;
    match op_of_number(base) {
        Some(op) if has_argument(op) => {
            write!(out, " ")?;
            show_argument(out, code, op, location.argument)
        }
        _ => Ok(()),
    }
}

fn show_handler(out: &mut String, handler: Option<Handler>) -> Result<(), AllocError> {
    match handler {
        Some(handler) => {
            show_offset(out, handler.to)?;
            write!(out, "/{}/{}", handler.stack, handler.handling)
        }
        None => write!(out, "-"),
    }
}

/// A location's mark (`m`), whether a thread may stop there (`s`), its depths and its handler with the depths left.
fn show_place(out: &mut String, location: &Location) -> Result<(), AllocError> {
    let mark = if location.is_marked { "m" } else { "." };
    let stop = if location.is_safe { "s" } else { "." };
    write!(out, " {mark}{stop} ")?;
    write!(out, "{} {} ", location.stack, location.handling)?;
    show_handler(out, location.handler)
}

/// The instructions of a text's first code as `OFFSET LINE OPCODE ARGUMENT`, but for some at its ends.
pub(super) fn listing(
    alloc: Global,
    text: &[u8],
    from: usize,
    behind: usize,
) -> Result<String, Fail> {
    let (program, bases) = compiled(alloc, text)?;
    let mut out = String::new(alloc);
    let Some(code) = program.code(0) else {
        return Ok(out);
    };
    let locations = code.locations.as_slice();
    let end = locations.len().saturating_sub(behind);
    for (k, (location, base)) in locations.iter().zip(bases.iter()).enumerate() {
        if from <= k && k < end {
            if from < k {
                write!(out, "; ")?;
            }
            write!(out, "{}", k.saturating_mul(2))?;
            show_instruction(&mut out, code, *base, location)?;
        }
    }
    Ok(out)
}

/// The places of a text's first code as `OFFSET MARKS STACK HANDLING HANDLER`.
pub(super) fn places(alloc: Global, text: &[u8]) -> Result<String, Fail> {
    let (program, _) = compiled(alloc, text)?;
    let mut out = String::new(alloc);
    let Some(code) = program.code(0) else {
        return Ok(out);
    };
    for (k, location) in code.locations.as_slice().iter().enumerate() {
        if 0 < k {
            write!(out, "; ")?;
        }
        write!(out, "{}", k.saturating_mul(2))?;
        show_place(&mut out, location)?;
    }
    Ok(out)
}
