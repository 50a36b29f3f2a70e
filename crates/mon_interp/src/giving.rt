//! What a frame that is left, or that waits, gives to the frame that made its call.

ghost use Rattle.std.specs.Prelude.{◌≡◌, None, IfOk};
ghost use Rattle.std.specs.Option.{option_copied};
ghost use Rattle.mon_values.specs.Weights.{made_exc, exc_of};
ghost use Rattle.mon_builtins.specs.Builtins.{stop_iteration as stopped};
ghost use Rattle.mon_machine.specs.Giving as spec;
ghost use Rattle.mon_machine.specs.Moves as moves;

use mon_frames::{Origin, ResumeFault};
use mon_values::class::is_subclass;
use mon_values::exc::make_exc;
use mon_values::fault::{ExcFault, Trouble};
use mon_values::trouble::trouble_exc;
use mon_values::value::{Exc, Value};
use std::alloc::{AllocError, Global};

/// The builtin that closes a generator.
const CLOSE: u8 = 13;

/// The class of GeneratorExit.
pub const GENERATOR_EXIT: u8 = 2;

/// The class of StopIteration.
const STOP_ITERATION: u8 = 3;

/// StopIteration without an argument.
pub fn stop_iteration() -> Exc
    ensures { result ≡ stopped }
{
    Exc {
        class: STOP_ITERATION,
        arg: None,
    }
}

/// The instance of a class with this argument, with want of memory apart.
#[tactic(auto, using(crate::proofs::Answered::exc_gave, crate::proofs::Answered::exc_raised))]
pub fn instance(
    alloc: Global,
    class: u8,
    arg: Option<&Value>,
) -> Result<Result<Exc, Trouble>, AllocError>
    ensures { IfOk result (λ made. made ≡ made_exc (exc_of class (option_copied arg.entry))) }
{
    match make_exc(alloc, class, arg) {
        Ok(exc) => Ok(Ok(exc)),
        Err(ExcFault::Trouble(trouble)) => Ok(Err(trouble)),
        Err(ExcFault::Memory) => Err(AllocError),
    }
}

/// Why a generator that is not finished does not go on.
pub fn refusal(fault: ResumeFault) -> Trouble
    ensures { result ≡ moves.refusal fault }
{
    match fault {
        ResumeFault::Running => Trouble::ALREADY_EXECUTING,
        ResumeFault::NotNone => Trouble::FIRST_SENT_VALUE,
        _ => Trouble::TOO_MANY_FRAMES,
    }
}

// An exception, or that of the machine which stands in its place.
fn or_trouble(alloc: Global, made: Result<Exc, Trouble>) -> Result<Exc, AllocError>
    ensures { IfOk result (λ exc. exc ≡ spec.or_trouble made) }
{
    match made {
        Ok(exc) => Ok(exc),
        Err(trouble) => trouble_exc(alloc, trouble, &[]),
    }
}

/// StopIteration with a value, of which None is no argument.
pub fn stop_with(alloc: Global, value: &Value) -> Result<Exc, AllocError>
    ensures { IfOk result (λ exc. exc ≡ spec.stop_with value.now) }
{
    match value {
        Value::None => Ok(stop_iteration()),
        _ => {
            let made = instance(alloc, STOP_ITERATION, Some(value))?;
            or_trouble(alloc, made)
        }
    }
}

/// How a call of a builtin is answered by a generator that returned.
pub fn return_answer(
    alloc: Global,
    builtin: u8,
    value: Value,
) -> Result<Result<Value, Exc>, AllocError>
    ensures { IfOk result (λ answer. answer ≡ spec.return_answer builtin value) }
{
    if builtin == CLOSE {
        return Ok(Ok(value));
    }
    Ok(Err(stop_with(alloc, &value)?))
}

/// How it is answered by one that yielded.
pub fn yield_answer(
    alloc: Global,
    builtin: u8,
    value: Value,
) -> Result<Result<Value, Exc>, AllocError>
    ensures { IfOk result (λ answer. answer ≡ spec.yield_answer builtin value) }
{
    if builtin != CLOSE {
        return Ok(Ok(value));
    }
    let ignored = trouble_exc(alloc, Trouble::IGNORED_GENERATOR_EXIT, &[])?;
    Ok(Err(ignored))
}

/// How it is answered by one that an exception left.
pub fn raise_answer(builtin: u8, exc: Exc) -> Result<Value, Exc>
    ensures { result ≡ spec.raise_answer builtin exc }
{
    if builtin == CLOSE && is_subclass(exc.class, GENERATOR_EXIT) {
        return Ok(Value::None);
    }
    Err(exc)
}

/// What an exception is outside the frame that it left, which came so onto the call stack.
pub fn outside(alloc: Global, origin: Origin, exc: Exc) -> Result<Exc, AllocError>
    ensures { IfOk result (λ out. out ≡ spec.outside origin exc) }
{
    match origin {
        Origin::Plain => Ok(exc),
        Origin::Generator(_, _) => {
            if is_subclass(exc.class, STOP_ITERATION) {
                return trouble_exc(alloc, Trouble::RAISED_STOP_ITERATION, &[]);
            }
            Ok(exc)
        }
    }
}
