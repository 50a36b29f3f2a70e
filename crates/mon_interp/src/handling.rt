//! Instructions that raise, catch and handle exceptions.

ghost use Rattle.std.specs.Prelude.{◌≡◌, ◌<◌, Some, IfOk};
ghost use Rattle.std.specs.Option.{option_copied};
ghost use Rattle.mon_values.specs.declared.value.Value.TheViews.{out-Exc};
ghost use Rattle.mon_frames.specs.declared.frame.Frame.{Frame as FrameOf};
ghost use Rattle.mon_frames.specs.Views.{top_of};
ghost use Rattle.mon_machine.specs.State.{moved};
ghost use Rattle.mon_machine.specs.Operations as spec;
ghost use Rattle.mon_machine.specs.Moves as moves;
ghost use Rattle.mon_interp.specs.Moving.{Stands};

use crate::answer::{go_on, push, raise};
use mon_frames::{Frame, Frames};
use mon_machine::Ending;
use mon_values::class::is_subclass;
use mon_values::fault::Trouble;
use mon_values::value::{Exc, Value};
use std::alloc::{AllocError, Global};

/// `RAISE_VARARGS 1`: an instance is raised, or a class as an instance without argument.
pub fn raise_top(alloc: Global, frame: &mut Frame) -> Result<Ending, AllocError>
    ensures { IfOk result (λ ending. spec.raise_top frame.old frame.old.stack ≡ record { frame = frame.new; ending = ending }) }
{
    match frame.stack.pop() {
        None => Ok(Ending::Misses),
        Some(Value::Exc(exc)) => Ok(Ending::Raises(exc)),
        Some(Value::ExcClass(class)) => Ok(Ending::Raises(Exc { class, arg: None })),
        Some(_) => raise(alloc, Trouble::NOT_AN_EXCEPTION),
    }
}

/// `RAISE_VARARGS` of the top, or with the argument 0 of what is handled.
#[tactic(auto, using(crate::proofs::Standing::one_stands))]
pub fn raise_varargs(
    alloc: Global,
    frames: &mut Frames,
    argument: u32,
) -> Result<Ending, AllocError>
    requires { Stands frames.old.calls }
    ensures { IfOk result (λ ending. (f : FrameOf) → top_of frames.old.calls ≡ Some f → moves.raise_varargs frames.old argument f ≡ moved frames.new ending) }
{
    if argument != 0 {
        return raise_top(alloc, frames.top_mut());
    }
    match frames.handled() {
        None => raise(alloc, Trouble::NOTHING_TO_RERAISE),
        Some(exc) => Ok(Ending::Reraises(exc.copy()?)),
    }
}

/// `RERAISE`
pub fn reraise(alloc: Global, frame: &mut Frame) -> Result<Ending, AllocError>
    ensures { IfOk result (λ ending. spec.reraise frame.old frame.old.stack ≡ record { frame = frame.new; ending = ending }) }
{
    match frame.stack.pop() {
        None => Ok(Ending::Misses),
        Some(Value::Exc(exc)) => match frame.handling.pop() {
            None => Ok(Ending::Misses),
            Some(_) => Ok(Ending::Reraises(exc)),
        },
        Some(_) => raise(alloc, Trouble::NOT_AN_EXCEPTION),
    }
}

/// `PUSH_EXC_INFO`
pub fn push_exc_info(alloc: Global, frame: &mut Frame) -> Result<Ending, AllocError>
    requires { frame.old.index < 65536 }
    ensures { IfOk result (λ ending. spec.push_exc_info frame.old frame.old.stack ≡ record { frame = frame.new; ending = ending }) }
{
    match frame.stack.top() {
        None => Ok(Ending::Misses),
        Some(Value::Exc(exc)) => {
            let exc = exc.copy()?;
            frame.handling.push(exc)?;
            Ok(go_on(frame))
        }
        Some(_) => raise(alloc, Trouble::NOT_AN_EXCEPTION),
    }
}

/// `POP_EXCEPT`
pub fn pop_except(frame: &mut Frame) -> Ending
    requires { frame.old.index < 65536 }
    ensures { spec.pop_except frame.old ≡ record { frame = frame.new; ending = result } }
{
    match frame.handling.pop() {
        None => Ending::Misses,
        Some(_) => go_on(frame),
    }
}

// Whether a class is of one of these, each of which must be a class.
#[tactic(auto, using(crate::proofs::Matching::one_more))]
fn matches_any(class: u8, of: &[Value]) -> Option<bool>
    ensures { result ≡ spec.matches_any class of.now }
{
    let mut found = false;
    for v in of {
        let Value::ExcClass(of) = v else {
            return None;
        };
        found |= is_subclass(class, *of);
    }
    Some(found)
}

// Whether a class is of what a value is, a class or a tuple of classes.
fn matches(class: u8, of: &Value) -> Option<bool>
    ensures { result ≡ spec.matches_of class of.now }
{
    match of {
        Value::ExcClass(of) => Some(is_subclass(class, *of)),
        Value::Tuple(items) => matches_any(class, items.as_slice()),
        _ => None,
    }
}

/// `CHECK_EXC_MATCH`
pub fn check_exc_match(alloc: Global, frame: &mut Frame) -> Result<Ending, AllocError>
    requires { frame.old.index < 65536 }
    ensures { IfOk result (λ ending. spec.check_exc_match frame.old frame.old.stack ≡ record { frame = frame.new; ending = ending }) }
{
    let Some(of) = frame.stack.pop() else {
        return Ok(Ending::Misses);
    };
    match frame.stack.top() {
        None => Ok(Ending::Misses),
        Some(Value::Exc(exc)) => match matches(exc.class, &of) {
            None => raise(alloc, Trouble::NOT_AN_EXCEPTION),
            Some(found) => push(frame, Value::Bool(found)),
        },
        Some(_) => raise(alloc, Trouble::NOT_AN_EXCEPTION),
    }
}
