//! What an instruction makes of all frames.

ghost use Rattle.std.specs.Prelude.{◌≡◌, Some, IfOk};
ghost use Rattle.mon_frames.specs.declared.frame.Frame.{Frame as FrameOf};
ghost use Rattle.mon_frames.specs.Views.{top_of};
ghost use Rattle.mon_machine.specs.State.{moved};
ghost use Rattle.mon_machine.specs.Moves as spec;
ghost use Rattle.mon_interp.specs.Moving.{Stands, frames_move};

use crate::call::call;
use crate::done::{Done, plain};
use crate::handling::raise_varargs;
use crate::iterate::{for_iter, get_iter};
use crate::operate::operate;
use mon_code::{Code, Program};
use mon_events::Op;
use mon_frames::Frames;
use mon_machine::Ending;
use std::alloc::{AllocError, Global};

// `RETURN_VALUE`: the frame is left by what follows.
#[tactic(auto, using(crate::proofs::Standing::one_stands))]
fn return_value(frames: &mut Frames) -> Ending
    requires { Stands frames.old.calls }
    ensures { (f : FrameOf) → top_of frames.old.calls ≡ Some f → spec.return_value frames.old f f.stack ≡ moved frames.new result }
{
    match frames.top_mut().stack.pop() {
        None => Ending::Misses,
        Some(value) => Ending::Returns(value),
    }
}

// `YIELD_VALUE`: the frame waits by what follows.
#[tactic(auto, using(crate::proofs::Standing::one_stands))]
fn yield_value(frames: &mut Frames) -> Ending
    requires { Stands frames.old.calls }
    ensures { (f : FrameOf) → top_of frames.old.calls ≡ Some f → spec.yield_value frames.old f f.stack ≡ moved frames.new result }
{
    let frame = frames.top_mut();
    match frame.stack.pop() {
        None => Ending::Misses,
        Some(value) => {
            frame.index += 1;
            Ending::Yields(value)
        }
    }
}

// `RETURN_GENERATOR`: the frame becomes a generator by what follows.
#[tactic(auto, using(crate::proofs::Standing::one_stands))]
fn return_generator(frames: &mut Frames) -> Ending
    requires { Stands frames.old.calls }
    ensures { (f : FrameOf) → top_of frames.old.calls ≡ Some f → spec.return_generator frames.old f ≡ moved frames.new result }
{
    frames.top_mut().index = 1;
    Ending::Parks
}

// Does what an instruction does that works on all frames.
fn move_frames(
    alloc: Global,
    program: &Program,
    frames: &mut Frames,
    op: Op,
    argument: u32,
) -> Result<Done, AllocError>
    requires { Stands frames.old.calls }
    ensures { IfOk result (λ done. (f : FrameOf) → top_of frames.old.calls ≡ Some f → spec.move_of program.now op argument f frames.old ≡ frames_move frames.new done) }
{
    match op {
        Op::GetIter => Ok(plain(get_iter(alloc, frames)?)),
        Op::ForIter => Ok(plain(for_iter(alloc, frames)?)),
        Op::RaiseVarargs => Ok(plain(raise_varargs(alloc, frames, argument)?)),
        Op::Call => call(alloc, program, frames, argument),
        Op::ReturnValue => Ok(plain(return_value(frames))),
        Op::ReturnGenerator => Ok(plain(return_generator(frames))),
        Op::YieldValue => Ok(plain(yield_value(frames))),
        _ => Ok(plain(Ending::Misses)),
    }
}

/// Does what an instruction with this argument does, in the top frame, which is one of this code.
#[tactic(auto, using(crate::proofs::Standing::one_stands, crate::proofs::Standing::stands_within, crate::proofs::Standing::with_same))]
pub fn perform(
    alloc: Global,
    program: &Program,
    code: &Code,
    frames: &mut Frames,
    op: Op,
    argument: u32,
) -> Result<Done, AllocError>
    requires { Stands frames.old.calls }
    ensures { IfOk result (λ done. (f : FrameOf) → top_of frames.old.calls ≡ Some f → spec.effect program.now code.now op argument f frames.old ≡ frames_move frames.new done) }
{
    match operate(alloc, program, code, frames.top_mut(), op, argument)? {
        Some(ending) => Ok(plain(ending)),
        None => move_frames(alloc, program, frames, op, argument),
    }
}
