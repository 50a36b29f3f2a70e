//! Instructions that go over values.

ghost use Rattle.std.specs.Prelude.{◌≡◌, ◌<◌, Some, length, slice_get, OnOk, IfOk};
ghost use Rattle.mon_machine.specs.declared.mode.Ending.TheVariants.{Continues};
ghost use Rattle.mon_values.specs.declared.value.Value.{None as NoneValue, Done as DoneValue};
ghost use Rattle.mon_frames.specs.declared.call.By.TheVariants as by;
ghost use Rattle.mon_frames.specs.Generators.{resumed};
ghost use Rattle.mon_builtins.specs.Builtins.{stop_iteration as stopped};
ghost use Rattle.mon_frames.specs.declared.frame.Frame.{Frame as FrameOf};
ghost use Rattle.mon_frames.specs.Views.{top_of};
ghost use Rattle.mon_frames.specs.Iterating.{next_of};
ghost use Rattle.mon_machine.specs.State.{moved};
ghost use Rattle.mon_machine.specs.Moves as spec;
ghost use Rattle.mon_interp.specs.Moving.{Stands};

use crate::answer::raise;
use crate::giving::{refusal, stop_iteration};
use mon_frames::{By, Frames, IterFault, ResumeFault};
use mon_machine::Ending;
use mon_shared::SharedBox;
use mon_values::fault::Trouble;
use mon_values::value::Value;
use std::alloc::{AllocError, Global};

/// Moves the top frame on to its next instruction, with one more value on its stack.
#[tactic(auto, using(crate::proofs::Standing::one_stands, crate::proofs::Standing::stands_within))]
pub fn push_value(frames: &mut Frames, value: Value) -> Result<(), AllocError>
    requires { Stands frames.old.calls }
    ensures { OnOk result ((f : FrameOf) → top_of frames.old.calls ≡ Some f → spec.pushes frames.old f value ≡ moved frames.new Continues) }
{
    let frame = frames.top_mut();
    frame.stack.push(value)?;
    frame.index += 1;
    Ok(())
}

/// Goes on in the top frame, with one more value on its stack.
pub fn push_top(frames: &mut Frames, value: Value) -> Result<Ending, AllocError>
    requires { Stands frames.old.calls }
    ensures { IfOk result (λ ending. (f : FrameOf) → top_of frames.old.calls ≡ Some f → spec.pushes frames.old f value ≡ moved frames.new ending) }
{
    push_value(frames, value)?;
    Ok(Ending::Continues)
}

// Goes on with what a value is gone over with.
fn iterate_over(alloc: Global, frames: &mut Frames, over: Value) -> Result<Ending, AllocError>
    requires { Stands frames.old.calls }
    ensures { IfOk result (λ ending. (f : FrameOf) → top_of frames.old.calls ≡ Some f → spec.iterates_over frames.old f over ≡ moved frames.new ending) }
{
    match frames.iterate(over) {
        Ok(value) => push_top(frames, value),
        Err(IterFault::Trouble(trouble)) => raise(alloc, trouble),
        Err(IterFault::Memory) => Err(AllocError),
    }
}

/// `GET_ITER`
#[tactic(auto, using(crate::proofs::Standing::one_stands))]
pub fn get_iter(alloc: Global, frames: &mut Frames) -> Result<Ending, AllocError>
    requires { Stands frames.old.calls }
    ensures { IfOk result (λ ending. (f : FrameOf) → top_of frames.old.calls ≡ Some f → spec.get_iter frames.old f f.stack ≡ moved frames.new ending) }
{
    match frames.top_mut().stack.pop() {
        None => Ok(Ending::Misses),
        Some(over) => iterate_over(alloc, frames, over),
    }
}

// The item, or the end of the loop.
fn or_done(item: Option<Value>) -> Value
    ensures { result ≡ spec.or_done item }
{
    match item {
        None => Value::Done(None),
        Some(item) => item,
    }
}

// Goes on with the next value of an iterator, or the end of the loop.
fn push_next(frames: &mut Frames, iterator: u32) -> Result<Ending, AllocError>
    requires { Stands frames.old.calls }
    ensures { IfOk result (λ ending. (f : FrameOf) → top_of frames.old.calls ≡ Some f → spec.item_of f (next_of frames.old iterator) ≡ moved frames.new ending) }
{
    let item = frames.next_item(iterator)?;
    push_top(frames, or_done(item))
}

// Goes on with the end of a loop over a generator.
fn push_stop(alloc: Global, frames: &mut Frames) -> Result<Ending, AllocError>
    requires { Stands frames.old.calls }
    ensures { IfOk result (λ ending. (f : FrameOf) → top_of frames.old.calls ≡ Some f → spec.pushes frames.old f (DoneValue (Some stopped)) ≡ moved frames.new ending) }
{
    let end = SharedBox::new(alloc, stop_iteration())?;
    push_top(frames, Value::Done(Some(end)))
}

// Lets a generator go on for a loop, whose frame stands on top.
#[tactic(auto, using(crate::proofs::Resuming::resumed_ok, crate::proofs::Resuming::resumed_running, crate::proofs::Resuming::resumed_finished, crate::proofs::Resuming::resumed_not_none, crate::proofs::Resuming::resumed_full))]
fn resume_for(alloc: Global, frames: &mut Frames, number: u32) -> Result<Ending, AllocError>
    requires stands { Stands frames.old.calls }
    requires within { number < length frames.old.generators }
    ensures { IfOk result (λ ending. (f : FrameOf) → top_of frames.old.calls ≡ Some f → spec.loops frames.old f (resumed frames.old number NoneValue by.For) ≡ moved frames.new ending) }
{
    match frames.resume(number, Value::None, By::For) {
        Ok(()) => Ok(Ending::Continues),
        Err(ResumeFault::Finished) => push_stop(alloc, frames),
        Err(ResumeFault::Memory) => Err(AllocError),
        Err(fault) => raise(alloc, refusal(fault)),
    }
}

// Goes on with a generator; without one there is nothing to go over.
fn next_of_generator(alloc: Global, frames: &mut Frames, number: u32) -> Result<Ending, AllocError>
    requires { Stands frames.old.calls }
    ensures { IfOk result (λ ending. (f : FrameOf) → top_of frames.old.calls ≡ Some f → spec.for_generator frames.old f number (slice_get frames.old.generators number) ≡ moved frames.new ending) }
{
    match frames.generator(number) {
        None => raise(alloc, Trouble::NOT_ITERABLE),
        Some(_) => resume_for(alloc, frames, number),
    }
}

/// `FOR_ITER`
#[tactic(auto, using(crate::proofs::Standing::one_stands))]
pub fn for_iter(alloc: Global, frames: &mut Frames) -> Result<Ending, AllocError>
    requires { Stands frames.old.calls }
    ensures { IfOk result (λ ending. (f : FrameOf) → top_of frames.old.calls ≡ Some f → spec.for_iter frames.old f f.stack ≡ moved frames.new ending) }
{
    match frames.top().stack.top() {
        None => Ok(Ending::Misses),
        Some(Value::Iter(number)) => {
            let number = *number;
            push_next(frames, number)
        }
        Some(Value::Gen(number)) => {
            let number = *number;
            next_of_generator(alloc, frames, number)
        }
        Some(_) => raise(alloc, Trouble::NOT_ITERABLE),
    }
}
