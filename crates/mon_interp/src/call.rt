//! `CALL`: of a code, a builtin or a class of exceptions.

ghost use Rattle.std.specs.Prelude.{◌≡◌, ◌<◌, Some, slice_get, IfOk};
ghost use Rattle.mon_frames.specs.declared.frame.Frame.{Frame as FrameOf};
ghost use Rattle.mon_frames.specs.Views.{top_of};
ghost use Rattle.mon_machine.specs.Moves as spec;
ghost use Rattle.mon_interp.specs.Moving.{Stands, TakesCall, frames_move, texts};

use crate::done::{Done, plain, refuse, throw, throw_trouble};
use crate::giving::instance;
use crate::iterate::push_top;
use crate::resume::{call_method, next_of_generator};
use mon_builtins::{BuiltinFault, Given, call_builtin};
use mon_code::Program;
use mon_events::Event;
use mon_frames::{Frame, FrameFault, Frames};
use mon_machine::Ending;
use mon_values::fault::Trouble;
use mon_values::text::Text;
use mon_values::value::{Exc, Value};
use std::alloc::{AllocError, Global};

/// The builtins that are called by their names.
const NAMED_BUILTINS: u8 = 11;

/// All builtins; those behind the named ones are methods of generators.
const BUILTINS: u8 = 14;

/// A builtin or a class answered with a value, and perhaps with a text.
pub fn answer(frames: &mut Frames, printed: Option<Text>, value: Value) -> Result<Done, AllocError>
    requires { Stands frames.old.calls }
    ensures { IfOk result (λ done. (f : FrameOf) → top_of frames.old.calls ≡ Some f → spec.answers frames.old f (texts printed) value ≡ frames_move frames.new done) }
{
    Ok(Done {
        ending: push_top(frames, value)?,
        printed,
        ancillary: Some(Event::CReturn),
    })
}

fn call_code(
    alloc: Global,
    program: &Program,
    frames: &mut Frames,
    function: u16,
    args: Vec<Value>,
) -> Result<Done, AllocError>
    ensures { IfOk result (λ done. spec.calls_code program.now frames.old args.items function (slice_get program.now.codes function) ≡ frames_move frames.new done) }
{
    let Some(code) = program.code(function) else {
        return throw_trouble(alloc, Trouble::NOT_CALLABLE);
    };
    if args.len() != code.parameters as usize {
        return refuse(alloc, Trouble::WRONG_COUNT);
    }
    match frames.push_call(program, function, args) {
        Ok(()) => Ok(plain(Ending::Continues)),
        Err(FrameFault::Full) => refuse(alloc, Trouble::TOO_MANY_FRAMES),
        Err(FrameFault::Memory) => Err(AllocError),
    }
}

// A class answers with an instance, or raises.
fn answer_exc(
    alloc: Global,
    frames: &mut Frames,
    made: Result<Exc, Trouble>,
) -> Result<Done, AllocError>
    requires { Stands frames.old.calls }
    ensures { IfOk result (λ done. (f : FrameOf) → top_of frames.old.calls ≡ Some f → spec.as_answer frames.old f made ≡ frames_move frames.new done) }
{
    match made {
        Ok(exc) => answer(frames, None, Value::Exc(exc)),
        Err(trouble) => throw_trouble(alloc, trouble),
    }
}

fn call_class(
    alloc: Global,
    frames: &mut Frames,
    class: u8,
    args: &[Value],
) -> Result<Done, AllocError>
    requires { Stands frames.old.calls }
    ensures { IfOk result (λ done. (f : FrameOf) → top_of frames.old.calls ≡ Some f → spec.calls_class frames.old f class args.now ≡ frames_move frames.new done) }
{
    match args {
        [] => {
            let made = instance(alloc, class, None)?;
            answer_exc(alloc, frames, made)
        }
        [arg] => {
            let made = instance(alloc, class, Some(arg))?;
            answer_exc(alloc, frames, made)
        }
        _ => throw_trouble(alloc, Trouble::WRONG_COUNT),
    }
}

// Goes on with what a builtin gave.
fn give(alloc: Global, frames: &mut Frames, given: Given) -> Result<Done, AllocError>
    requires { Stands frames.old.calls }
    ensures { IfOk result (λ done. (f : FrameOf) → top_of frames.old.calls ≡ Some f → spec.given_move f given frames.old ≡ frames_move frames.new done) }
{
    match given {
        Given::Value(value) => answer(frames, None, value),
        Given::Printed(text) => answer(frames, Some(text), Value::None),
        Given::Raised(exc) => Ok(throw(exc)),
        Given::Next(number) => next_of_generator(alloc, frames, number),
    }
}

// A builtin that is called by its name.
fn call_named(
    alloc: Global,
    program: &Program,
    frames: &mut Frames,
    number: u8,
    args: &[Value],
) -> Result<Done, AllocError>
    requires stands { Stands frames.old.calls }
    requires named { number < 11 }
    ensures { IfOk result (λ done. (f : FrameOf) → top_of frames.old.calls ≡ Some f → spec.calls_builtin program.now frames.old f number args.now ≡ frames_move frames.new done) }
{
    match call_builtin(alloc, number, args, program.names.as_slice(), frames) {
        Ok(given) => give(alloc, frames, given),
        Err(BuiltinFault::Memory) => Err(AllocError),
    }
}

fn call_numbered(
    alloc: Global,
    program: &Program,
    frames: &mut Frames,
    number: u8,
    args: &[Value],
) -> Result<Done, AllocError>
    requires { Stands frames.old.calls }
    ensures { IfOk result (λ done. (f : FrameOf) → top_of frames.old.calls ≡ Some f → spec.calls_builtin program.now frames.old f number args.now ≡ frames_move frames.new done) }
{
    if number < NAMED_BUILTINS {
        call_named(alloc, program, frames, number, args)
    } else if number < BUILTINS {
        call_method(alloc, frames, number, args)
    } else {
        throw_trouble(alloc, Trouble::NOT_CALLABLE)
    }
}

// A call of this callee.
fn call_value(
    alloc: Global,
    program: &Program,
    frames: &mut Frames,
    callee: &Value,
    args: Vec<Value>,
) -> Result<Done, AllocError>
    requires { Stands frames.old.calls }
    ensures { IfOk result (λ done. (f : FrameOf) → top_of frames.old.calls ≡ Some f → spec.calls program.now frames.old f args.items callee.now ≡ frames_move frames.new done) }
{
    match callee {
        Value::Function(number) => call_code(alloc, program, frames, *number, args),
        Value::Builtin(number) => call_numbered(alloc, program, frames, *number, args.as_slice()),
        Value::ExcClass(class) => call_class(alloc, frames, *class, args.as_slice()),
        _ => throw_trouble(alloc, Trouble::NOT_CALLABLE),
    }
}

// The callee of a call with so many arguments, and the arguments; nothing, where fewer values stand.
fn take_call(frame: &mut Frame, count: usize) -> Result<Option<(Value, Vec<Value>)>, AllocError>
    ensures { IfOk result (λ taken. TakesCall count taken frame.old frame.new) }
{
    if frame.stack.len() <= count {
        return Ok(None);
    }
    let args = frame.stack.take_top(count)?;
    match frame.stack.pop() {
        None => unreachable!(),
        Some(callee) => Ok(Some((callee, args))),
    }
}

/// `CALL` with so many arguments.
pub fn call(
    alloc: Global,
    program: &Program,
    frames: &mut Frames,
    count: u32,
) -> Result<Done, AllocError>
    requires { Stands frames.old.calls }
    ensures { IfOk result (λ done. (f : FrameOf) → top_of frames.old.calls ≡ Some f → spec.call program.now frames.old count f ≡ frames_move frames.new done) }
{
    match take_call(frames.top_mut(), count as usize)? {
        None => Ok(plain(Ending::Misses)),
        Some((callee, args)) => call_value(alloc, program, frames, &callee, args),
    }
}
