//! The codes of a program.

ghost use Rattle.std.specs.Prelude.{◌≡◌, ◌≤◌, ◌++◌, length, map, IfOk, OnOk};
ghost use Rattle.mon_code.specs.Checked as checked;
ghost use Rattle.mon_compile.specs.Faults.{most_locals, most_locations};
ghost use Rattle.mon_compile.specs.Functions as functions;
ghost use Rattle.mon_compile.specs.Marking as marking;
ghost use Rattle.mon_compile.specs.Modules as spec;
ghost use Rattle.mon_compile.specs.Placed as placed;

use crate::assembly::{Argument, Handler, Instruction, Label};
use crate::marking::marked;
use mon_code::{Code, Handler as Placed, Location};
use mon_events::Op;
use mon_trees::Text;
use mon_trees::tree::Function;
use mon_values::value::Value;
use sqlite_items::Items;
use std::alloc::{AllocError, Global};

/// The code of a function from its instructions, with the number of its first location.
pub fn place(
    alloc: Global,
    function: &Function,
    locals: &[Text],
    first: u32,
    code: &[Instruction],
) -> Result<Code, AllocError>
    requires locals { locals.now ≡ functions.locals_of function.now }
    requires few_locals { length locals.now ≤ most_locals }
    requires code { code.now ≡ functions.function_code function.now }
    requires few_locations { length code.now ≤ most_locations }
    ensures { IfOk result (λ code. code ≡ marking.code_of first function.now) }
{
    let locals = texts(alloc, locals)?;
    let globals = globals(alloc, code)?;
    let constants = constants(alloc, code)?;
    let locations = locations(alloc, code)?;
    let locations = marked(alloc, code, locations.as_slice())?;
    Ok(Code {
        parameters: function.parameters.len() as u16,
        locals,
        globals,
        constants,
        first,
        locations,
    })
}

fn texts(alloc: Global, names: &[Text]) -> Result<Items<mon_values::text::Text>, AllocError>
    ensures { IfOk result (λ texts. texts ≡ names.now) }
{
    let mut texts = Items::new(alloc);
    let mut rest = names;
    while let Some((name, others)) = rest.split_first() {
        texts.push(text(alloc, name)?)?;
        rest = others;
    }
    Ok(texts)
}

/// A text of the parser as one of the machine's.
pub fn text(alloc: Global, text: &Text) -> Result<mon_values::text::Text, AllocError>
    ensures { IfOk result (λ copy. copy ≡ text.now) }
{
    mon_values::text::Text::from_chars(alloc, text.as_slice())
}

// The constants of a code, in order.
fn constants(alloc: Global, code: &[Instruction]) -> Result<Items<Value>, AllocError>
    ensures { IfOk result (λ constants. constants ≡ spec.constants_of code.now) }
{
    let mut constants = Items::new(alloc);
    for instruction in code {
        add_constant(&mut constants, &instruction.argument)?;
    }
    Ok(constants)
}

fn add_constant(constants: &mut Items<Value>, argument: &Argument) -> Result<(), AllocError>
    ensures { OnOk result (constants.new ≡ constants.old ++ spec.constants_in argument.now) }
{
    match argument {
        Argument::Constant(value) => constants.push(value.copy()?),
        _ => Ok(()),
    }
}

// The names that a code looks for in the module, in order.
fn globals(alloc: Global, code: &[Instruction]) -> Result<Items<mon_values::text::Text>, AllocError>
    ensures { IfOk result (λ globals. globals ≡ spec.globals_of code.now) }
{
    let mut globals = Items::new(alloc);
    for instruction in code {
        add_global(alloc, &mut globals, &instruction.argument)?;
    }
    Ok(globals)
}

fn add_global(
    alloc: Global,
    globals: &mut Items<mon_values::text::Text>,
    argument: &Argument,
) -> Result<(), AllocError>
    ensures { OnOk result (globals.new ≡ globals.old ++ spec.globals_in argument.now) }
{
    match argument {
        Argument::Name(name) => globals.push(text(alloc, name)?),
        _ => Ok(()),
    }
}

// The locations of a code, none of which is marked.
fn locations(alloc: Global, code: &[Instruction]) -> Result<Items<Location>, AllocError>
    requires { length code.now ≤ most_locations }
    ensures { IfOk result (λ locations. locations ≡ spec.locations_of 0 0 code.now) }
{
    let mut locations = Items::new(alloc);
    let mut constants = 0;
    let mut globals = 0;
    for instruction in code {
        locations.push(location(constants, globals, instruction))?;
        constants += constant_count(&instruction.argument);
        globals += global_count(&instruction.argument);
    }
    Ok(locations)
}

fn constant_count(argument: &Argument) -> u32
    ensures count { result ≡ length (spec.constants_in argument.now) }
    ensures few { result ≤ 1 }
{
    match argument {
        Argument::Constant(_) => 1,
        _ => 0,
    }
}

fn global_count(argument: &Argument) -> u32
    ensures count { result ≡ length (spec.globals_in argument.now) }
    ensures few { result ≤ 1 }
{
    match argument {
        Argument::Name(_) => 1,
        _ => 0,
    }
}

// The location of an instruction, behind so many constants and globals.
fn location(constants: u32, globals: u32, instruction: &Instruction) -> Location
    ensures { result ≡ spec.location_of constants globals instruction.now }
{
    let spot = instruction.spot;
    Location {
        argument: argument_of(constants, globals, &instruction.argument),
        line: spot.line,
        is_marked: false,
        is_safe: is_safe(instruction.op),
        handler: handler(spot.handler),
        stack: spot.stack,
        handling: spot.handling,
    }
}

fn argument_of(constants: u32, globals: u32, argument: &Argument) -> u32
    ensures { result ≡ spec.argument_of constants globals argument.now }
{
    match argument {
        Argument::Number(n) => *n,
        Argument::Constant(_) => constants,
        Argument::Name(_) => globals,
        Argument::Destination(label) => index_of(*label),
    }
}

// An open label, of which none is left, counts as index 0.
fn index_of(label: Label) -> u32
    ensures { result ≡ placed.index_of label }
{
    match label {
        Label::At(index) => index,
        Label::EndOf(_) => 0,
        Label::HandlerOf(_) => 0,
    }
}

fn handler(handler: Option<Handler>) -> Option<Placed>
    ensures { result ≡ placed.placed_handler handler }
{
    match handler {
        Some(handler) => Some(Placed {
            to: index_of(handler.to),
            stack: handler.stack,
            handling: handler.handling,
        }),
        None => None,
    }
}

// Whether a thread may stop before an opcode.
fn is_safe(op: Op) -> bool
    ensures { result ≡ checked.is_safe op }
{
    matches!(op, Op::Resume | Op::JumpBackward)
}

/// Adds the numbers of the opcodes of a code.
pub fn add_bases(bases: &mut Vec<u8>, code: &[Instruction]) -> Result<(), AllocError>
    ensures { OnOk result (bases.new.items ≡ bases.old.items ++ map spec.op_number code.now) }
{
    for instruction in code {
        bases.push(instruction.op.number())?;
    }
    Ok(())
}
