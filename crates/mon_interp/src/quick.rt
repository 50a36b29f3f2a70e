//! Instructions done in place: those that need no memory and no other frame. All of an instruction is done, or nothing.

ghost use Rattle.std.specs.Prelude.{◌≡◌, ◌<◌, ◌∷◌, true, false, List, Option, Some, Ok, slice_get, MatchOption, ℕ};
ghost use Rattle.std.specs.Option.{option_copied};
ghost use Rattle.mon_values.specs.declared.value.Value as item;
ghost use Rattle.mon_values.specs.Arithmetic.{arith_of};
ghost use Rattle.mon_values.specs.Comparing.{compare_of};
ghost use Rattle.mon_code.specs.Operators.{arith_op_of, cmp_op_of};
ghost use Rattle.mon_machine.specs.State as state;
ghost use Rattle.mon_machine.specs.Operations as spec;
ghost use Rattle.mon_machine.specs.Operations.{operation};
ghost use Rattle.mon_machine.specs.declared.mode.Ending.TheVariants.{Continues};
ghost use Rattle.mon_interp.specs.InPlace as in_place;
ghost use Rattle.mon_interp.specs.Moving.{frame_move};

use crate::jump::is_done;
use mon_code::{Code, Program, arith_op_of_number, cmp_op_of_number};
use mon_events::Op;
use mon_frames::{Frame, Operands};
use mon_values::operator::{ArithOp, CmpOp};
use mon_values::truth::is_true;
use mon_values::value::Value;
use std::cmp::Ordering;

// Goes on with one more value, where there is room for it.
fn push(frame: &mut Frame, value: Value) -> bool
    requires { frame.old.index < 65536 }
    ensures yes { result ≡ true → state.goes_on frame.old (value ∷ frame.old.stack) ≡ state.ends frame.new Continues }
    ensures no { result ≡ false → frame.new ≡ frame.old }
{
    if frame.stack.push_within(value) {
        frame.index += 1;
        true
    } else {
        false
    }
}

// `LOAD_CONST`
fn load_const(frame: &mut Frame, constant: Option<&Value>) -> bool
    requires { frame.old.index < 65536 }
    ensures yes { result ≡ true → spec.load_const frame.old (option_copied constant.entry) ≡ state.ends frame.new Continues }
    ensures no { result ≡ false → frame.new ≡ frame.old }
{
    match constant {
        None => false,
        Some(value) => match value.copy() {
            Err(_) => false,
            Ok(value) => push(frame, value),
        },
    }
}

// `LOAD_FAST`
fn load_fast(frame: &mut Frame, local: usize) -> bool
    requires { frame.old.index < 65536 }
    ensures yes { (name : List ℕ) → result ≡ true → spec.load_fast frame.old name (slice_get frame.old.locals local) ≡ state.ends frame.new Continues }
    ensures no { result ≡ false → frame.new ≡ frame.old }
{
    match frame.locals.copy_at(local) {
        Ok(Some(value)) => push(frame, value),
        _ => false,
    }
}

// `STORE_FAST`
fn store_fast(frame: &mut Frame, local: usize) -> bool
    requires { frame.old.index < 65536 }
    ensures yes { result ≡ true → spec.store_fast frame.old local frame.old.stack ≡ state.ends frame.new Continues }
    ensures no { result ≡ false → frame.new ≡ frame.old }
{
    if local >= frame.locals.len() {
        return false;
    }
    match frame.stack.pop() {
        None => false,
        Some(value) => {
            frame.locals.set(local, Some(value));
            frame.index += 1;
            true
        }
    }
}

// `POP_TOP`, and `END_FOR`
fn pop_top(frame: &mut Frame) -> bool
    requires { frame.old.index < 65536 }
    ensures yes { result ≡ true → spec.pop_top frame.old frame.old.stack ≡ state.ends frame.new Continues }
    ensures no { result ≡ false → frame.new ≡ frame.old }
{
    match frame.stack.pop() {
        None => false,
        Some(_) => {
            frame.index += 1;
            true
        }
    }
}

// `POP_JUMP_IF_TRUE`, and `POP_JUMP_IF_FALSE`
fn pop_jump_if(wanted: bool, frame: &mut Frame, to: u32) -> bool
    requires { frame.old.index < 65536 }
    ensures yes { result ≡ true → spec.pop_jump_if wanted frame.old to frame.old.stack ≡ state.ends frame.new Continues }
    ensures no { result ≡ false → frame.new ≡ frame.old }
{
    match frame.stack.pop() {
        None => false,
        Some(value) => {
            frame.index = if is_true(&value) == wanted {
                to
            } else {
                frame.index + 1
            };
            true
        }
    }
}

// What an operator gives of two integers, where it is one that is done in place.
fn arith_in_place(op: ArithOp, a: i64, b: i64) -> Option<i64>
    ensures { MatchOption result (Unit {0}) (λ n. arith_of op (item.Int a) (item.Int b) ≡ Ok (item.Int n)) }
{
    match op {
        ArithOp::Add => a.checked_add(b),
        ArithOp::Sub => a.checked_sub(b),
        ArithOp::Mul => a.checked_mul(b),
        ArithOp::FloorDiv | ArithOp::Mod => None,
    }
}

// `BINARY_OP`
fn binary_op(frame: &mut Frame, argument: u32) -> bool
    requires { frame.old.index < 65536 }
    ensures yes { result ≡ true → spec.binary_op (arith_op_of argument) frame.old ≡ state.ends frame.new Continues }
    ensures no { result ≡ false → frame.new ≡ frame.old }
{
    let Some((a, b)) = frame.stack.integers() else {
        return false;
    };
    let Some(op) = arith_op_of_number(argument) else {
        return false;
    };
    match arith_in_place(op, a, b) {
        None => false,
        Some(n) => {
            frame.stack.replace_two(Value::Int(n));
            frame.index += 1;
            true
        }
    }
}

// What a comparison answers of two integers that stand so.
fn holds(op: CmpOp, order: Ordering) -> bool
    ensures { result ≡ in_place.holds op order }
{
    match op {
        CmpOp::Eq => order.is_eq(),
        CmpOp::Ne => order.is_ne(),
        CmpOp::Lt => order.is_lt(),
        CmpOp::Le => order.is_le(),
        CmpOp::Gt => order.is_gt(),
        CmpOp::Ge => order.is_ge(),
    }
}

// What a comparison answers of two integers.
#[tactic(auto, using(crate::proofs::InPlace::compared))]
fn compare_in_place(op: CmpOp, a: i64, b: i64) -> bool
    ensures { compare_of op (item.Int a) (item.Int b) ≡ Ok result }
{
    holds(op, a.cmp(&b))
}

// `COMPARE_OP`
fn compare_op(frame: &mut Frame, argument: u32) -> bool
    requires { frame.old.index < 65536 }
    ensures yes { result ≡ true → spec.compare_op (cmp_op_of argument) frame.old ≡ state.ends frame.new Continues }
    ensures no { result ≡ false → frame.new ≡ frame.old }
{
    let Some((a, b)) = frame.stack.integers() else {
        return false;
    };
    let Some(op) = cmp_op_of_number(argument) else {
        return false;
    };
    frame
        .stack
        .replace_two(Value::Bool(compare_in_place(op, a, b)));
    frame.index += 1;
    true
}

// Whether a loop goes on, by what stands above its iterator.
fn loops_on(stack: &Operands) -> bool
    ensures { result ≡ in_place.loops_on stack.now }
{
    match stack.top() {
        None => false,
        Some(value) => stack.len() >= 2 && !is_done(value),
    }
}

// `POP_JUMP_IF_DONE`, where the loop goes on.
#[tactic(auto, using(crate::proofs::InPlace::looped))]
fn go_on_in_loop(frame: &mut Frame) -> bool
    requires { frame.old.index < 65536 }
    ensures yes { (to : ℕ) → result ≡ true → spec.pop_jump_if_done frame.old to frame.old.stack ≡ state.ends frame.new Continues }
    ensures no { result ≡ false → frame.new ≡ frame.old }
{
    if loops_on(&frame.stack) {
        frame.index += 1;
        true
    } else {
        false
    }
}

/// Does an instruction in place; whether it did.
pub fn quick(program: &Program, code: &Code, frame: &mut Frame, op: Op, argument: u32) -> bool
    requires { frame.old.index < 65536 }
    ensures yes { result ≡ true → operation program.now code.now op argument frame.old ≡ frame_move frame.new (Some Continues) }
    ensures no { result ≡ false → frame.new ≡ frame.old }
{
    let at = argument as usize;
    match op {
        Op::Nop | Op::Resume => {
            frame.index += 1;
            true
        }
        Op::LoadConst => load_const(frame, code.constants.get(at)),
        Op::LoadFast => load_fast(frame, at),
        Op::StoreFast => store_fast(frame, at),
        Op::BinaryOp => binary_op(frame, argument),
        Op::CompareOp => compare_op(frame, argument),
        Op::PopJumpIfDone => go_on_in_loop(frame),
        Op::PopTop | Op::EndFor => pop_top(frame),
        Op::JumpForward | Op::JumpBackward => {
            frame.index = argument;
            true
        }
        Op::PopJumpIfFalse => pop_jump_if(false, frame, argument),
        Op::PopJumpIfTrue => pop_jump_if(true, frame, argument),
        _ => false,
    }
}
