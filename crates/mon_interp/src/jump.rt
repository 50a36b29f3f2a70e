//! Instructions on the stack alone, and jumps.

ghost use Rattle.std.specs.Prelude.{◌≡◌, ◌<◌, true, false, IfOk};
ghost use Rattle.mon_machine.specs.State as state;
ghost use Rattle.mon_machine.specs.Operations as spec;

use crate::answer::{go_on, push};
use mon_frames::Frame;
use mon_machine::Ending;
use mon_values::truth::is_true;
use mon_values::value::Value;
use std::alloc::AllocError;

/// `COPY` of the top.
pub fn copy(frame: &mut Frame) -> Result<Ending, AllocError>
    requires { frame.old.index < 65536 }
    ensures { IfOk result (λ ending. spec.copy frame.old frame.old.stack ≡ record { frame = frame.new; ending = ending }) }
{
    match frame.stack.top() {
        None => Ok(Ending::Misses),
        Some(value) => {
            let value = value.copy()?;
            push(frame, value)
        }
    }
}

/// `SWAP` of the top two.
pub fn swap(frame: &mut Frame) -> Result<Ending, AllocError>
    requires { frame.old.index < 65536 }
    ensures { IfOk result (λ ending. spec.swap frame.old frame.old.stack ≡ record { frame = frame.new; ending = ending }) }
{
    let Some(a) = frame.stack.pop() else {
        return Ok(Ending::Misses);
    };
    let Some(b) = frame.stack.pop() else {
        return Ok(Ending::Misses);
    };
    frame.stack.push(a)?;
    push(frame, b)
}

/// `POP_TOP`, and `END_FOR`, which pops the end of a loop.
pub fn pop_top(frame: &mut Frame) -> Ending
    requires { frame.old.index < 65536 }
    ensures { spec.pop_top frame.old frame.old.stack ≡ record { frame = frame.new; ending = result } }
{
    match frame.stack.pop() {
        None => Ending::Misses,
        Some(_) => go_on(frame),
    }
}

/// Goes on at an index.
pub fn jump(frame: &mut Frame, to: u32) -> Ending
    ensures { state.jumps frame.old to frame.old.stack ≡ record { frame = frame.new; ending = result } }
{
    frame.index = to;
    Ending::Continues
}

/// `POP_JUMP_IF_TRUE`, and `POP_JUMP_IF_FALSE`.
pub fn pop_jump_if(wanted: bool, frame: &mut Frame, to: u32) -> Ending
    requires { frame.old.index < 65536 }
    ensures { spec.pop_jump_if wanted frame.old to frame.old.stack ≡ record { frame = frame.new; ending = result } }
{
    match frame.stack.pop() {
        None => Ending::Misses,
        Some(value) => {
            if is_true(&value) == wanted {
                jump(frame, to)
            } else {
                go_on(frame)
            }
        }
    }
}

/// Whether a value is the end of a loop.
pub fn is_done(v: &Value) -> bool
    ensures { result ≡ spec.is_done v.now }
{
    matches!(v, Value::Done(_))
}

/// `POP_JUMP_IF_DONE`: the end of a loop takes the place of the iterator below.
pub fn pop_jump_if_done(frame: &mut Frame, to: u32) -> Result<Ending, AllocError>
    requires { frame.old.index < 65536 }
    ensures { IfOk result (λ ending. spec.pop_jump_if_done frame.old to frame.old.stack ≡ record { frame = frame.new; ending = ending }) }
{
    let Some(value) = frame.stack.pop() else {
        return Ok(Ending::Misses);
    };
    let Some(over) = frame.stack.pop() else {
        return Ok(Ending::Misses);
    };
    if is_done(&value) {
        frame.stack.push(value)?;
        Ok(jump(frame, to))
    } else {
        frame.stack.push(over)?;
        push(frame, value)
    }
}
