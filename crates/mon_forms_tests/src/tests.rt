mod contents;
mod faults;
mod limits;
mod listings;
mod reports;

use mon_code::Program;
use mon_compile::compile;
use mon_forms::{PlanFault, PlanKind, read_plan};
use mon_lexer::items;
use mon_parser::parse;
use std::alloc::{AllocError, Global};
use std::test::Fail;

/// Functions of no parameter, of one and of two.
const PROGRAM: &[u8] =
    b"def f(n):\n    return n\n\ndef none():\n    return 0\n\ndef two(a, b):\n    return a\n";

fn program(alloc: Global) -> Result<Program, Fail> {
    let items = items(alloc, PROGRAM)?;
    let module = parse(alloc, items.as_slice())?;
    let (program, _) = compile(alloc, &module)?;
    Ok(program)
}

fn kind_name(kind: PlanKind) -> &'static str {
    match kind {
        PlanKind::Word => "Word",
        PlanKind::Number => "Number",
        PlanKind::Name => "Name",
        PlanKind::Order => "Order",
        PlanKind::TooMany => "TooMany",
    }
}

/// The first faulty line of a text with its kind, or `plan`.
fn verdict(alloc: Global, program: &Program, text: &[u8]) -> Result<String, AllocError> {
    match read_plan(alloc, text, program) {
        Ok(_) => String::from_str(alloc, "plan"),
        Err(PlanFault::Faulty(line, kind)) => {
            let kind = kind_name(kind);
            format!(in alloc; "{line} {kind}")
        }
        Err(PlanFault::Memory) => Err(AllocError),
    }
}

/// The first of these texts that gets another verdict than the one beside it.
fn first_other<'a>(
    alloc: Global,
    program: &Program,
    cases: &[(&'a [u8], &str)],
) -> Result<Option<&'a [u8]>, AllocError> {
    for (text, due) in cases {
        if verdict(alloc, program, text)?.as_str() != *due {
            return Ok(Some(*text));
        }
    }
    Ok(None)
}

/// So many pieces behind a text.
fn repeated(
    alloc: Global,
    before: &str,
    piece: &str,
    count: usize,
    behind: &str,
) -> Result<String, AllocError> {
    let mut text = String::from_str(alloc, before)?;
    for _turn in 0..count {
        text.push_str(piece)?;
    }
    text.push_str(behind)?;
    Ok(text)
}
