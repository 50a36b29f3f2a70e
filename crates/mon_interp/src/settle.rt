//! How a thread goes on after an instruction, and with an exception that is raised.

ghost use Rattle.std.specs.Prelude.{◌≡◌, ◌<◌, ◌∷◌, [], ℕ, List, length, Some, None, OnOk, OnSome, IfOk};
ghost use Rattle.mon_code.specs.Programs.{Parts};
ghost use Rattle.mon_events.specs.declared.event.Event.TheVariants as event_of;
ghost use Rattle.mon_recorders.specs.declared.happening.Happening.{Happening as HappeningOf};
ghost use Rattle.mon_machine.specs.Events.{of_exception};
ghost use Rattle.mon_interp.specs.Asking.{Adds};
ghost use Rattle.mon_frames.specs.declared.call.Origin.{Origin as OriginOf};
ghost use Rattle.mon_frames.specs.declared.frame.Frame.{Frame as FrameOf};
ghost use Rattle.mon_frames.specs.Views.{top_of, origin_of};
ghost use Rattle.mon_machine.specs.declared.mode.Mode.TheVariants.{Unwind};
ghost use Rattle.mon_machine.specs.Step as spec;
ghost use Rattle.mon_machine.specs.Giving as giving;
ghost use Rattle.mon_interp.specs.Moving.{Stands};

use crate::events::{Place, place_of, push_exception};
use crate::giving::{outside, raise_answer, return_answer, stop_with, yield_answer};
use crate::iterate::push_value;
use mon_code::{Handler, Location, Program};
use mon_events::Event;
use mon_frames::{By, Frame, Frames, Origin, handler_of};
use mon_machine::{Answer, Ending, Mode};
use mon_recorders::{Happening, Outcome};
use mon_shared::SharedBox;
use mon_values::value::{Exc, Value};
use std::alloc::{AllocError, Global};

/// The location at which a frame stands, if there is one.
pub fn location_of(program: &Program, frame: &Frame) -> Option<Location>
    ensures value { result ≡ giving.stands_at program.now frame.now }
    ensures within { OnSome result (frame.now.index < 65536) }
{
    let code = program.code(frame.code)?;
    code.locations.as_slice().get(frame.index as usize).copied()
}

// Gives the value of a call to the top frame, which made it.
#[tactic(auto, using(crate::proofs::Settling::top_stands, crate::proofs::Settling::no_caller_stands, crate::proofs::Settling::caller_takes))]
fn give_top(program: &Program, frames: &mut Frames, value: Value) -> Result<Mode, AllocError>
    requires { 0 < length frames.old.calls }
    ensures { IfOk result (λ mode. giving.gives_caller program.now frames.old frames.old.calls value ≡ record { frames = frames.new; mode = mode }) }
{
    match location_of(program, frames.top()) {
        None => Ok(Mode::Stuck),
        Some(_) => {
            push_value(frames, value)?;
            Ok(Mode::Run)
        }
    }
}

// Gives the value of a call to the frame that made it, or ends the thread where there is none.
fn give_caller(program: &Program, frames: &mut Frames, value: Value) -> Result<Mode, AllocError>
    ensures { IfOk result (λ mode. giving.gives_caller program.now frames.old frames.old.calls value ≡ record { frames = frames.new; mode = mode }) }
{
    if frames.depth() == 0 {
        return Ok(Mode::Ended(Outcome::Returned(value)));
    }
    give_top(program, frames, value)
}

// Gives what a frame returned that came so onto the call stack.
fn give_returned(
    alloc: Global,
    program: &Program,
    frames: &mut Frames,
    origin: Origin,
    value: Value,
) -> Result<Mode, AllocError>
    ensures { IfOk result (λ mode. giving.gives_returned program.now frames.old origin value ≡ record { frames = frames.new; mode = mode }) }
{
    match origin {
        Origin::Plain => give_caller(program, frames, value),
        Origin::Generator(_, By::For) => {
            let end = SharedBox::new(alloc, stop_with(alloc, &value)?)?;
            give_caller(program, frames, Value::Done(Some(end)))
        }
        Origin::Generator(generator, By::Call(builtin)) => Ok(Mode::Finish(Answer {
            builtin,
            generator,
            result: return_answer(alloc, builtin, value)?,
        })),
    }
}

// Leaves the top frame with a value, if there is one.
#[tactic(auto, using(crate::proofs::Settling::leaves_none, crate::proofs::Settling::leaves_last, crate::proofs::Settling::leaves_more))]
fn leave(
    alloc: Global,
    program: &Program,
    frames: &mut Frames,
    value: Value,
) -> Result<Mode, AllocError>
    ensures { IfOk result (λ mode. giving.leaves program.now frames.old frames.old.calls value ≡ record { frames = frames.new; mode = mode }) }
{
    if frames.depth() == 0 {
        return Ok(Mode::Stuck);
    }
    let origin = frames.origin();
    let _left = frames.pop();
    if frames.depth() == 0 {
        return Ok(Mode::Ended(Outcome::Returned(value)));
    }
    give_returned(alloc, program, frames, origin, value)
}

// Gives what a generator yielded that was resumed so.
fn give_yielded(
    alloc: Global,
    program: &Program,
    frames: &mut Frames,
    generator: u32,
    by: By,
    value: Value,
) -> Result<Mode, AllocError>
    ensures { IfOk result (λ mode. giving.gives_yielded program.now frames.old generator by value ≡ record { frames = frames.new; mode = mode }) }
{
    match by {
        By::For => give_caller(program, frames, value),
        By::Call(builtin) => Ok(Mode::Finish(Answer {
            builtin,
            generator,
            result: yield_answer(alloc, builtin, value)?,
        })),
    }
}

// Lets the top frame wait, if it is a generator's, and gives what it yielded.
#[tactic(auto, using(crate::proofs::Settling::yields_none, crate::proofs::Settling::yields_plain, crate::proofs::Settling::yields_last, crate::proofs::Settling::yields_more))]
fn suspend(
    alloc: Global,
    program: &Program,
    frames: &mut Frames,
    value: Value,
) -> Result<Mode, AllocError>
    ensures { IfOk result (λ mode. giving.yields program.now frames.old frames.old.calls value ≡ record { frames = frames.new; mode = mode }) }
{
    if frames.depth() == 0 {
        return Ok(Mode::Stuck);
    }
    match frames.origin() {
        Origin::Plain => Ok(Mode::Stuck),
        Origin::Generator(generator, by) => {
            frames.suspend();
            if frames.depth() == 0 {
                return Ok(Mode::Ended(Outcome::Returned(value)));
            }
            give_yielded(alloc, program, frames, generator, by, value)
        }
    }
}

// Makes a generator of the top frame, if it was called plainly.
#[tactic(auto, using(crate::proofs::Settling::parks_none, crate::proofs::Settling::parks_generator, crate::proofs::Settling::parks_plain))]
fn park(program: &Program, frames: &mut Frames) -> Result<Mode, AllocError>
    ensures { IfOk result (λ mode. giving.parks program.now frames.old frames.old.calls ≡ record { frames = frames.new; mode = mode }) }
{
    if frames.depth() == 0 {
        return Ok(Mode::Stuck);
    }
    match frames.origin() {
        Origin::Generator(_, _) => Ok(Mode::Stuck),
        Origin::Plain => {
            let number = frames.park()?;
            give_caller(program, frames, Value::Gen(number))
        }
    }
}

/// How a thread goes on after an instruction that ended so.
pub fn settle(
    alloc: Global,
    program: &Program,
    frames: &mut Frames,
    ending: Ending,
) -> Result<Mode, AllocError>
    ensures { IfOk result (λ mode. spec.after_ending program.now frames.old ending ≡ record { frames = frames.new; mode = mode }) }
{
    match ending {
        Ending::Continues => Ok(Mode::Run),
        Ending::Raises(exc) => Ok(Mode::Unwind(exc)),
        Ending::Reraises(exc) => Ok(Mode::Unwind(exc)),
        Ending::Returns(value) => leave(alloc, program, frames, value),
        Ending::Yields(value) => suspend(alloc, program, frames, value),
        Ending::Parks => park(program, frames),
        Ending::ThrowsIn(exc) => Ok(Mode::Unwind(exc)),
        Ending::Misses => Ok(Mode::Stuck),
    }
}

/// How a thread goes on where the call at which the top frame stands has this answer.
#[tactic(auto, using(crate::proofs::Settling::answered))]
pub fn finish(frames: &mut Frames, answer: Result<Value, Exc>) -> Result<Mode, AllocError>
    requires { Stands frames.old.calls }
    ensures { IfOk result (λ mode. (f : FrameOf) → top_of frames.old.calls ≡ Some f → spec.finished frames.old f answer ≡ record { frames = frames.new; mode = mode }) }
{
    match answer {
        Ok(value) => {
            push_value(frames, value)?;
            Ok(Mode::Run)
        }
        Err(exc) => Ok(Mode::Unwind(exc)),
    }
}

// Puts a frame at a handler, with as much on the stack and the handling list as it keeps, and with the exception above.
fn catch(frame: &mut Frame, handler: Handler, exc: Exc) -> Result<(), AllocError>
    ensures { OnOk result (frame.new ≡ spec.caught_in handler exc frame.old) }
{
    frame.stack.cut(handler.stack as usize);
    frame.handling.cut(handler.handling as usize);
    frame.stack.push(Value::Exc(exc))?;
    frame.index = handler.to;
    Ok(())
}

// An exception is raised in the top frame.
fn raise_in_top(
    alloc: Global,
    program: &Program,
    frames: &Frames,
    exc: Exc,
    global: u64,
    events: &mut Vec<Happening>,
) -> Result<Mode, AllocError>
    requires { 0 < length frames.now.calls }
    ensures after { IfOk result (λ mode. mode ≡ Unwind exc) }
    ensures events { OnOk result ((word : ℕ) (f : FrameOf) → top_of frames.now.calls ≡ Some f → Adds word global events.old.items events.new.items (of_exception program.now event_of.Raise exc f ∷ [])) }
{
    let place = place_of(frames.top());
    push_exception(alloc, program, events, global, place, Event::Raise, &exc)?;
    Ok(Mode::Unwind(exc))
}

// An exception goes on in the frame that made the call, or is its answer, or ends the thread where there is none.
#[tactic(auto, using(crate::proofs::Settling::out_ended, crate::proofs::Settling::out_answered, crate::proofs::Settling::out_raised))]
fn go_out(
    alloc: Global,
    program: &Program,
    frames: &Frames,
    origin: Origin,
    exc: Exc,
    global: u64,
    events: &mut Vec<Happening>,
) -> Result<Mode, AllocError>
    ensures after { IfOk result (λ mode. (p : Parts) (f : FrameOf) → (spec.goes_out p frames.now frames.now.calls origin exc f).after ≡ record { frames = frames.now; mode = mode }) }
    ensures events { OnOk result ((word : ℕ) (before : List HappeningOf) (f : FrameOf) → Adds word global before events.old.items (of_exception program.now event_of.PyUnwind exc f ∷ []) → Adds word global before events.new.items (spec.goes_out program.now frames.now frames.now.calls origin exc f).events) }
{
    let exc = outside(alloc, origin, exc)?;
    if frames.depth() == 0 {
        return Ok(Mode::Ended(Outcome::Raised(exc)));
    }
    match origin {
        Origin::Generator(generator, by) => match by {
            By::Call(builtin) => Ok(Mode::Finish(Answer {
                builtin,
                generator,
                result: raise_answer(builtin, exc),
            })),
            By::For => raise_in_top(alloc, program, frames, exc, global, events),
        },
        Origin::Plain => raise_in_top(alloc, program, frames, exc, global, events),
    }
}

// An exception that the top frame does not catch leaves it.
fn leave_raised(
    alloc: Global,
    program: &Program,
    frames: &mut Frames,
    exc: Exc,
    global: u64,
    events: &mut Vec<Happening>,
) -> Result<Mode, AllocError>
    requires { 0 < length frames.old.calls }
    ensures after { IfOk result (λ mode. (p : Parts) (f : FrameOf) (origin : OriginOf) → origin_of frames.old.calls ≡ Some origin → (spec.unwinds_from p frames.old origin exc f None).after ≡ record { frames = frames.new; mode = mode }) }
    ensures events { OnOk result ((word : ℕ) (f : FrameOf) (origin : OriginOf) → top_of frames.old.calls ≡ Some f → origin_of frames.old.calls ≡ Some origin → Adds word global events.old.items events.new.items (spec.unwinds_from program.now frames.old origin exc f None).events) }
{
    let origin = frames.origin();
    let left = frames.pop();
    let place = place_of(&left);
    push_exception(alloc, program, events, global, place, Event::PyUnwind, &exc)?;
    go_out(alloc, program, frames, origin, exc, global, events)
}

/// How a thread goes on with an exception in its top frame. The events of the step are added to the others, as far as the
/// global word asks for them.
#[tactic(auto, using(crate::proofs::Settling::caught, crate::proofs::Settling::uncaught))]
pub fn unwind(
    alloc: Global,
    program: &Program,
    frames: &mut Frames,
    exc: Exc,
    global: u64,
    events: &mut Vec<Happening>,
) -> Result<Mode, AllocError>
    requires { 0 < length frames.old.calls }
    ensures after { IfOk result (λ mode. (spec.unwinds program.now frames.old exc frames.old.calls).after ≡ record { frames = frames.new; mode = mode }) }
    ensures events { OnOk result ((word : ℕ) → Adds word global events.old.items events.new.items (spec.unwinds program.now frames.old exc frames.old.calls).events) }
{
    let top = frames.top();
    match handler_of(program, top.code, top.index) {
        None => leave_raised(alloc, program, frames, exc, global, events),
        Some(handler) => {
            let place = Place {
                code: top.code,
                index: handler.to,
                location: 0,
            };
            push_exception(
                alloc,
                program,
                events,
                global,
                place,
                Event::ExceptionHandled,
                &exc,
            )?;
            catch(frames.top_mut(), handler, exc)?;
            Ok(Mode::Run)
        }
    }
}
