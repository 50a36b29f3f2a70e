//! The values that events show.

ghost use Rattle.std.specs.Prelude.{◌≡◌, None, slice_get, option_map, IfOk};
ghost use Rattle.std.specs.Option.{option_copied};
ghost use Rattle.mon_values.specs.declared.value.Value.{Exc as RaisedValue};
ghost use Rattle.mon_machine.specs.Moves.{args_in};
ghost use Rattle.mon_machine.specs.Events as spec;
ghost use Rattle.mon_interp.specs.Shows.{shown_in, values};

use mon_code::Program;
use mon_events::Op;
use mon_frames::{Frame, Operands};
use mon_machine::Answer;
use mon_recorders::Cut;
use mon_values::value::{Exc, Value};
use std::alloc::{AllocError, Global};

/// The values that an event shows, each cut.
#[derive(Debug, Drop)]
pub struct Shows {
    pub first: Cut,
    pub second: Cut,
}

// No values.
fn no_values() -> Shows
    ensures { shown_in result ≡ spec.nothing }
{
    Shows {
        first: Cut::absent(),
        second: Cut::absent(),
    }
}

fn cut(alloc: Global, program: &Program, value: &Value) -> Result<Cut, AllocError>
    ensures { IfOk result (λ cut. cut ≡ spec.cut program.now value.now) }
{
    Cut::of(alloc, value, program.names.as_slice())
}

fn cut_or_none(alloc: Global, program: &Program, value: Option<&Value>) -> Result<Cut, AllocError>
    ensures { IfOk result (λ cut. cut ≡ spec.cut_or_none program.now (option_copied value.entry)) }
{
    match value {
        None => Ok(Cut::absent()),
        Some(value) => cut(alloc, program, value),
    }
}

// The operand below so many others, if there is one.
#[tactic(auto, using(crate::proofs::Operands::below_is))]
fn below(stack: &Operands, count: usize) -> Option<&Value>
    ensures { option_copied result ≡ slice_get stack.now count }
{
    let items = stack.items.as_slice();
    if count >= items.len() {
        return None;
    }
    items.get(items.len() - 1 - count)
}

// The first argument of a call with so many.
fn first_argument(stack: &Operands, count: usize) -> Option<&Value>
    ensures { option_copied result ≡ slice_get (args_in count stack.now) 0 }
{
    let count = count.min(stack.len());
    if count == 0 {
        return None;
    }
    below(stack, count - 1)
}

// One value, or none.
fn show_value(alloc: Global, program: &Program, value: Option<&Value>) -> Result<Shows, AllocError>
    ensures { IfOk result (λ shows. shown_in shows ≡ spec.of_value program.now (option_copied value.entry)) }
{
    Ok(Shows {
        first: cut_or_none(alloc, program, value)?,
        second: Cut::absent(),
    })
}

// The callee and the first argument of a call with so many.
fn show_call(
    alloc: Global,
    program: &Program,
    stack: &Operands,
    count: usize,
) -> Result<Shows, AllocError>
    ensures { IfOk result (λ shows. shown_in shows ≡ spec.of_call program.now count stack.now) }
{
    Ok(Shows {
        first: cut_or_none(alloc, program, below(stack, count))?,
        second: cut_or_none(alloc, program, first_argument(stack, count))?,
    })
}

/// The builtin and the generator of a call that has an answer.
pub fn show_answer(alloc: Global, program: &Program, answer: &Answer) -> Result<Shows, AllocError>
    ensures { IfOk result (λ shows. shown_in shows ≡ spec.of_answer program.now answer.now) }
{
    Ok(Shows {
        first: cut(alloc, program, &Value::Builtin(answer.builtin))?,
        second: cut(alloc, program, &Value::Gen(answer.generator))?,
    })
}

/// An exception.
pub fn show_exc(alloc: Global, program: &Program, exc: &Exc) -> Result<Shows, AllocError>
    ensures { IfOk result (λ shows. shown_in shows ≡ spec.of_value program.now (Some (RaisedValue exc.now))) }
{
    let value = Value::Exc(exc.copy()?);
    show_value(alloc, program, Some(&value))
}

// The exception with which a generator has ended, where a value is the end of a loop over one.
fn show_stop(
    alloc: Global,
    program: &Program,
    value: Option<&Value>,
) -> Result<Option<Shows>, AllocError>
    ensures { IfOk result (λ shows. option_map shown_in shows ≡ spec.stopped program.now (option_copied value.entry)) }
{
    match value {
        Some(Value::Done(Some(exc))) => Ok(Some(show_exc(alloc, program, exc.get())?)),
        _ => Ok(None),
    }
}

/// The values that the event of an opcode with this argument shows, by its frame before; nothing, where it does not occur.
pub fn show(
    alloc: Global,
    program: &Program,
    frame: &Frame,
    op: Op,
    argument: u32,
) -> Result<Option<Shows>, AllocError>
    ensures { IfOk result (λ shows. option_map shown_in shows ≡ values program.now op argument frame.now) }
{
    let stack = &frame.stack;
    match op {
        Op::EndFor => show_stop(alloc, program, below(stack, 0)),
        Op::Call => Ok(Some(show_call(alloc, program, stack, argument as usize)?)),
        Op::ReturnValue | Op::YieldValue => {
            Ok(Some(show_value(alloc, program, below(stack, 0))?))
        }
        _ => Ok(Some(no_values())),
    }
}
