//! What an instruction makes of its own frame.

ghost use Rattle.std.specs.Prelude.{◌≡◌, ◌<◌, None, IfOk};
ghost use Rattle.std.specs.Option.{option_copied};
ghost use Rattle.mon_code.specs.Operators.{arith_op_of, cmp_op_of};
ghost use Rattle.mon_machine.specs.Operations as spec;
ghost use Rattle.mon_machine.specs.Operations.{operation};
ghost use Rattle.mon_interp.specs.Moving.{frame_move};

use crate::answer::go_on;
use crate::handling::{check_exc_match, pop_except, push_exc_info, reraise};
use crate::jump::{copy, jump, pop_jump_if, pop_jump_if_done, pop_top, swap};
use crate::load::{delete_fast, load_const, load_fast, load_global, load_method, store_fast};
use crate::operator::{
    binary_op, binary_subscr, compare_op, contains_op, is_op, unary_negative, unary_not,
};
use crate::sequence::{build_tuple, unpack_sequence};
use mon_code::{Code, Program, arith_op_of_number, cmp_op_of_number};
use mon_events::Op;
use mon_frames::Frame;
use mon_machine::Ending;
use std::alloc::{AllocError, Global};

// `BINARY_OP` with this argument.
fn binary(alloc: Global, frame: &mut Frame, argument: u32) -> Result<Ending, AllocError>
    requires { frame.old.index < 65536 }
    ensures { IfOk result (λ ending. spec.binary_op (arith_op_of argument) frame.old ≡ record { frame = frame.new; ending = ending }) }
{
    match arith_op_of_number(argument) {
        None => Ok(Ending::Misses),
        Some(op) => binary_op(alloc, frame, op),
    }
}

// `COMPARE_OP` with this argument.
fn comparison(alloc: Global, frame: &mut Frame, argument: u32) -> Result<Ending, AllocError>
    requires { frame.old.index < 65536 }
    ensures { IfOk result (λ ending. spec.compare_op (cmp_op_of argument) frame.old ≡ record { frame = frame.new; ending = ending }) }
{
    match cmp_op_of_number(argument) {
        None => Ok(Ending::Misses),
        Some(op) => compare_op(alloc, frame, op),
    }
}

// `LOAD_METHOD` with this argument.
fn method(alloc: Global, frame: &mut Frame, argument: u32) -> Result<Ending, AllocError>
    requires { frame.old.index < 65536 }
    ensures { IfOk result (λ ending. spec.load_numbered frame.old argument ≡ record { frame = frame.new; ending = ending }) }
{
    match u8::try_from(argument) {
        Err(_) => Ok(Ending::Misses),
        Ok(number) => load_method(alloc, frame, number),
    }
}

/// Does what an instruction with this argument does to its own frame; nothing, where it is one that works on all frames.
pub fn operate(
    alloc: Global,
    program: &Program,
    code: &Code,
    frame: &mut Frame,
    op: Op,
    argument: u32,
) -> Result<Option<Ending>, AllocError>
    requires { frame.old.index < 65536 }
    ensures moves { IfOk result (λ ending. operation program.now code.now op argument frame.old ≡ frame_move frame.new ending) }
    ensures rest { IfOk result (λ ending. ending ≡ None → frame.new ≡ frame.old) }
{
    let at = argument as usize;
    let ending = match op {
        Op::Nop | Op::Resume => go_on(frame),
        Op::LoadConst => load_const(frame, code.constants.get(at))?,
        Op::LoadFast => load_fast(alloc, frame, code.locals.get(at), at)?,
        Op::StoreFast => store_fast(frame, at),
        Op::DeleteFast => delete_fast(frame, at),
        Op::LoadGlobal => load_global(alloc, program, frame, code.globals.get(at))?,
        Op::LoadMethod => method(alloc, frame, argument)?,
        Op::BinaryOp => binary(alloc, frame, argument)?,
        Op::CompareOp => comparison(alloc, frame, argument)?,
        Op::ContainsOp => contains_op(alloc, frame, argument)?,
        Op::IsOp => is_op(frame, argument)?,
        Op::UnaryNegative => unary_negative(alloc, frame)?,
        Op::UnaryNot => unary_not(frame)?,
        Op::BuildTuple => build_tuple(alloc, frame, argument)?,
        Op::UnpackSequence => unpack_sequence(alloc, frame, argument)?,
        Op::BinarySubscr => binary_subscr(alloc, frame)?,
        Op::Copy => copy(frame)?,
        Op::Swap => swap(frame)?,
        Op::PopTop | Op::EndFor => pop_top(frame),
        Op::JumpForward | Op::JumpBackward => jump(frame, argument),
        Op::PopJumpIfFalse => pop_jump_if(false, frame, argument),
        Op::PopJumpIfTrue => pop_jump_if(true, frame, argument),
        Op::PopJumpIfDone => pop_jump_if_done(frame, argument)?,
        Op::Reraise => reraise(alloc, frame)?,
        Op::PushExcInfo => push_exc_info(alloc, frame)?,
        Op::CheckExcMatch => check_exc_match(alloc, frame)?,
        Op::PopExcept => pop_except(frame),
        _ => return Ok(None),
    };
    Ok(Some(ending))
}
