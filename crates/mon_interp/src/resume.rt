//! Builtins that resume a generator: `next`, and the methods `send`, `throw` and `close`.

ghost use Rattle.std.specs.Prelude.{◌≡◌, ◌<◌, length, drop, Some, slice_get, IfSome, IfOk};
ghost use Rattle.mon_values.specs.declared.value.Value.TheViews.{out-Value};
ghost use Rattle.mon_frames.specs.declared.frame.Frame.{Frame as FrameOf};
ghost use Rattle.mon_frames.specs.declared.call.By.TheVariants as by;
ghost use Rattle.mon_frames.specs.Generators.{entered, closed};
ghost use Rattle.mon_frames.specs.Views.{top_of};
ghost use Rattle.mon_machine.specs.Moves as spec;
ghost use Rattle.mon_machine.specs.Operations.{instance_of};
ghost use Rattle.mon_interp.specs.Moving.{Stands, frames_move};

use crate::call::answer;
use crate::done::{Done, plain, throw, throw_trouble};
use crate::giving::{GENERATOR_EXIT, refusal, stop_iteration};
use mon_frames::{By, Closing, Frames, ResumeFault};
use mon_machine::Ending;
use mon_values::fault::Trouble;
use mon_values::value::{Exc, Value};
use std::alloc::{AllocError, Global};

const NEXT: u8 = 9;

const SEND: u8 = 11;

const THROW: u8 = 12;

// A builtin sends a value to a generator.
#[tactic(auto, using(crate::proofs::Resuming::resumed_ok, crate::proofs::Resuming::resumed_running, crate::proofs::Resuming::resumed_finished, crate::proofs::Resuming::resumed_not_none, crate::proofs::Resuming::resumed_full))]
fn send_by(
    alloc: Global,
    frames: &mut Frames,
    builtin: u8,
    number: u32,
    value: Value,
) -> Result<Done, AllocError>
    requires { number < length frames.old.generators }
    ensures { IfOk result (λ done. spec.sends frames.old builtin number value ≡ frames_move frames.new done) }
{
    match frames.resume(number, value, By::Call(builtin)) {
        Ok(()) => Ok(plain(Ending::Continues)),
        Err(ResumeFault::Finished) => Ok(throw(stop_iteration())),
        Err(ResumeFault::Memory) => Err(AllocError),
        Err(fault) => throw_trouble(alloc, refusal(fault)),
    }
}

/// `next` of a generator; a number that no generator has is that of a wrong argument.
pub fn next_of_generator(
    alloc: Global,
    frames: &mut Frames,
    number: u32,
) -> Result<Done, AllocError>
    ensures { IfOk result (λ done. spec.next_of_generator frames.old number (slice_get frames.old.generators number) ≡ frames_move frames.new done) }
{
    match frames.generator(number) {
        None => throw_trouble(alloc, Trouble::WRONG_ARGUMENT),
        Some(_) => send_by(alloc, frames, NEXT, number, Value::None),
    }
}

// `g.send(v)`
fn send(alloc: Global, frames: &mut Frames, number: u32, args: &[Value]) -> Result<Done, AllocError>
    requires { number < length frames.old.generators }
    ensures { IfOk result (λ done. spec.send frames.old number args.now ≡ frames_move frames.new done) }
{
    match args {
        [value] => {
            let value = value.copy()?;
            send_by(alloc, frames, SEND, number, value)
        }
        _ => throw_trouble(alloc, Trouble::WRONG_COUNT),
    }
}

// Throws an exception into a generator.
#[tactic(auto, using(crate::proofs::Resuming::resumed_ok, crate::proofs::Resuming::resumed_running, crate::proofs::Resuming::resumed_finished, crate::proofs::Resuming::resumed_not_none, crate::proofs::Resuming::resumed_full))]
fn throw_in(alloc: Global, frames: &mut Frames, number: u32, exc: Exc) -> Result<Done, AllocError>
    requires { number < length frames.old.generators }
    ensures { IfOk result (λ done. spec.throws_in frames.old exc (entered frames.old number (by.Call spec.throw_number)) ≡ frames_move frames.new done) }
{
    match frames.throw_into(number, By::Call(THROW)) {
        Ok(()) => Ok(plain(Ending::ThrowsIn(exc))),
        Err(ResumeFault::Finished) => Ok(throw(exc)),
        Err(ResumeFault::Memory) => Err(AllocError),
        Err(fault) => throw_trouble(alloc, refusal(fault)),
    }
}

// The exception that a value is, or that its class makes without an argument.
fn exception_of(value: &Value) -> Result<Result<Exc, Trouble>, AllocError>
    ensures { IfOk result (λ made. made ≡ instance_of value.now) }
{
    match value {
        Value::Exc(exc) => Ok(Ok(exc.copy()?)),
        Value::ExcClass(class) => Ok(Ok(Exc {
            class: *class,
            arg: None,
        })),
        _ => Ok(Err(Trouble::NOT_AN_EXCEPTION)),
    }
}

// Throws what is to be thrown into a generator.
fn throw_made(
    alloc: Global,
    frames: &mut Frames,
    number: u32,
    made: Result<Exc, Trouble>,
) -> Result<Done, AllocError>
    requires { number < length frames.old.generators }
    ensures { IfOk result (λ done. spec.throws_instance frames.old number made ≡ frames_move frames.new done) }
{
    match made {
        Ok(exc) => throw_in(alloc, frames, number, exc),
        Err(trouble) => throw_trouble(alloc, trouble),
    }
}

// `g.throw(e)`
fn throw_into(
    alloc: Global,
    frames: &mut Frames,
    number: u32,
    args: &[Value],
) -> Result<Done, AllocError>
    requires { number < length frames.old.generators }
    ensures { IfOk result (λ done. spec.throw frames.old number args.now ≡ frames_move frames.new done) }
{
    match args {
        [value] => {
            let made = exception_of(value)?;
            throw_made(alloc, frames, number, made)
        }
        _ => throw_trouble(alloc, Trouble::WRONG_COUNT),
    }
}

// Closes a generator.
#[tactic(auto, using(crate::proofs::Resuming::closed_ok))]
fn close_generator(alloc: Global, frames: &mut Frames, number: u32) -> Result<Done, AllocError>
    requires stands { Stands frames.old.calls }
    requires within { number < length frames.old.generators }
    ensures { IfOk result (λ done. (f : FrameOf) → top_of frames.old.calls ≡ Some f → spec.closes frames.old f (closed frames.old number) ≡ frames_move frames.new done) }
{
    match frames.close(number) {
        Ok(Closing::Closed) => answer(frames, None, Value::None),
        Ok(Closing::Entered) => Ok(plain(Ending::ThrowsIn(Exc {
            class: GENERATOR_EXIT,
            arg: None,
        }))),
        Err(ResumeFault::Memory) => Err(AllocError),
        Err(fault) => throw_trouble(alloc, refusal(fault)),
    }
}

// `g.close()`
fn close(
    alloc: Global,
    frames: &mut Frames,
    number: u32,
    args: &[Value],
) -> Result<Done, AllocError>
    requires stands { Stands frames.old.calls }
    requires within { number < length frames.old.generators }
    ensures { IfOk result (λ done. (f : FrameOf) → top_of frames.old.calls ≡ Some f → spec.close frames.old f number args.now ≡ frames_move frames.new done) }
{
    match args {
        [] => close_generator(alloc, frames, number),
        _ => throw_trouble(alloc, Trouble::WRONG_COUNT),
    }
}

// The number of the generator that a value is, if there is one.
fn generator_of(frames: &Frames, value: &Value) -> Option<u32>
    ensures number { result ≡ spec.generator_at frames.now (out-Value value.now) }
    ensures within { IfSome result (λ number. number < length frames.now.generators) }
{
    let Value::Gen(number) = value else {
        return None;
    };
    frames.generator(*number)?;
    Some(*number)
}

// A method of the generator of this number.
fn call_method_of(
    alloc: Global,
    frames: &mut Frames,
    method: u8,
    number: u32,
    args: &[Value],
) -> Result<Done, AllocError>
    requires stands { Stands frames.old.calls }
    requires within { number < length frames.old.generators }
    ensures { IfOk result (λ done. (f : FrameOf) → top_of frames.old.calls ≡ Some f → spec.method_of frames.old f method number args.now ≡ frames_move frames.new done) }
{
    match method {
        SEND => send(alloc, frames, number, args),
        THROW => throw_into(alloc, frames, number, args),
        _ => close(alloc, frames, number, args),
    }
}

/// A method of a generator, the first argument.
pub fn call_method(
    alloc: Global,
    frames: &mut Frames,
    method: u8,
    args: &[Value],
) -> Result<Done, AllocError>
    requires { Stands frames.old.calls }
    ensures { IfOk result (λ done. (f : FrameOf) → top_of frames.old.calls ≡ Some f → spec.method_on frames.old f method (spec.first_generator frames.old args.now) (drop 1 args.now) ≡ frames_move frames.new done) }
{
    let [first, rest @ ..] = args else {
        return throw_trouble(alloc, Trouble::NO_SUCH_METHOD);
    };
    match generator_of(frames, first) {
        None => throw_trouble(alloc, Trouble::NO_SUCH_METHOD),
        Some(number) => call_method_of(alloc, frames, method, number, rest),
    }
}
