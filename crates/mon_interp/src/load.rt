//! Instructions that load and store.

ghost use Rattle.std.specs.Prelude.{◌≡◌, ◌<◌, slice_get, IfOk};
ghost use Rattle.std.specs.Option.{option_copied};
ghost use Rattle.mon_machine.specs.Operations as spec;

use crate::answer::{go_on, push, raise, raise_named};
use crate::global::global_value;
use mon_code::Program;
use mon_frames::Frame;
use mon_machine::Ending;
use mon_values::fault::Trouble;
use mon_values::text::Text;
use mon_values::value::Value;
use std::alloc::{AllocError, Global};

/// `LOAD_CONST`
pub fn load_const(frame: &mut Frame, constant: Option<&Value>) -> Result<Ending, AllocError>
    requires { frame.old.index < 65536 }
    ensures { IfOk result (λ ending. spec.load_const frame.old (option_copied constant.entry) ≡ record { frame = frame.new; ending = ending }) }
{
    match constant {
        None => Ok(Ending::Misses),
        Some(value) => push(frame, value.copy()?),
    }
}

fn chars_or_none(name: Option<&Text>) -> &[char]
    ensures { result.now ≡ spec.or_empty (option_copied name.entry) }
{
    match name {
        None => &[],
        Some(name) => name.chars(),
    }
}

/// `LOAD_FAST` of a local of this name.
pub fn load_fast(
    alloc: Global,
    frame: &mut Frame,
    name: Option<&Text>,
    local: usize,
) -> Result<Ending, AllocError>
    requires { frame.old.index < 65536 }
    ensures { IfOk result (λ ending. spec.load_fast frame.old (spec.or_empty (option_copied name.entry)) (slice_get frame.old.locals local) ≡ record { frame = frame.new; ending = ending }) }
{
    match frame.locals.get(local) {
        None => Ok(Ending::Misses),
        Some(slot) => match slot {
            None => raise_named(alloc, Trouble::NAME_NOT_BOUND, chars_or_none(name)),
            Some(value) => {
                let value = value.copy()?;
                push(frame, value)
            }
        },
    }
}

// Binds a local, or makes it unbound.
fn set_local(frame: &mut Frame, local: usize, value: Option<Value>) -> Ending
    requires { frame.old.index < 65536 }
    ensures { spec.with_local frame.old local value frame.old.stack ≡ record { frame = frame.new; ending = result } }
{
    if local < frame.locals.len() {
        frame.locals.set(local, value);
        go_on(frame)
    } else {
        Ending::Misses
    }
}

/// `STORE_FAST`
pub fn store_fast(frame: &mut Frame, local: usize) -> Ending
    requires { frame.old.index < 65536 }
    ensures { spec.store_fast frame.old local frame.old.stack ≡ record { frame = frame.new; ending = result } }
{
    match frame.stack.pop() {
        None => Ending::Misses,
        Some(value) => set_local(frame, local, Some(value)),
    }
}

/// `DELETE_FAST`
pub fn delete_fast(frame: &mut Frame, local: usize) -> Ending
    requires { frame.old.index < 65536 }
    ensures { spec.with_local frame.old local None frame.old.stack ≡ record { frame = frame.new; ending = result } }
{
    set_local(frame, local, None)
}

// The value of a global name, or the exception that there is none.
fn load_named(
    alloc: Global,
    program: &Program,
    frame: &mut Frame,
    name: &Text,
) -> Result<Ending, AllocError>
    requires { frame.old.index < 65536 }
    ensures { IfOk result (λ ending. spec.load_found frame.old name.now (spec.global_of program.now name.now) ≡ record { frame = frame.new; ending = ending }) }
{
    match global_value(program, name)? {
        None => raise_named(alloc, Trouble::NAME_NOT_DEFINED, name.chars()),
        Some(value) => push(frame, value),
    }
}

/// `LOAD_GLOBAL` of this name.
pub fn load_global(
    alloc: Global,
    program: &Program,
    frame: &mut Frame,
    name: Option<&Text>,
) -> Result<Ending, AllocError>
    requires { frame.old.index < 65536 }
    ensures { IfOk result (λ ending. spec.load_global program.now frame.old (option_copied name.entry) ≡ record { frame = frame.new; ending = ending }) }
{
    match name {
        None => Ok(Ending::Misses),
        Some(name) => load_named(alloc, program, frame, name),
    }
}

/// `LOAD_METHOD`
pub fn load_method(alloc: Global, frame: &mut Frame, method: u8) -> Result<Ending, AllocError>
    requires { frame.old.index < 65536 }
    ensures { IfOk result (λ ending. spec.load_method frame.old method frame.old.stack ≡ record { frame = frame.new; ending = ending }) }
{
    match frame.stack.pop() {
        None => Ok(Ending::Misses),
        Some(Value::Gen(number)) => {
            frame.stack.push(Value::Builtin(method))?;
            push(frame, Value::Gen(number))
        }
        Some(_) => raise(alloc, Trouble::NO_SUCH_METHOD),
    }
}
