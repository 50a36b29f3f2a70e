//! Operators on the topmost values.

ghost use Rattle.std.specs.Prelude.{◌≡◌, ◌<◌, IfOk, Option};
ghost use Rattle.mon_values.specs.Arithmetic.{arith_of};
ghost use Rattle.mon_values.specs.Indexing.{index_of};
ghost use Rattle.mon_machine.specs.Operations as spec;
ghost use Rattle.mon_values.specs.Arithmetic as arithmetic;

use crate::answer::{give, push, raise};
use mon_frames::Frame;
use mon_machine::Ending;
use mon_values::arith::{arith, negate};
use mon_values::compare::compare;
use mon_values::contain::contains;
use mon_values::fault::{ArithFault, IndexFault, Trouble};
use mon_values::index::index;
use mon_values::operator::{ArithOp, CmpOp};
use mon_values::truth::is_true;
use mon_values::value::Value;
use std::alloc::{AllocError, Global};

// The operator's answer, with want of memory apart.
#[tactic(auto, using(crate::proofs::Answered::arith_gave, crate::proofs::Answered::arith_raised))]
fn arith_answer(
    alloc: Global,
    op: ArithOp,
    a: &Value,
    b: &Value,
) -> Result<Result<Value, Trouble>, AllocError>
    ensures { IfOk result (λ answer. answer ≡ arith_of op a.now b.now) }
{
    match arith(alloc, op, a, b) {
        Ok(value) => Ok(Ok(value)),
        Err(ArithFault::Trouble(trouble)) => Ok(Err(trouble)),
        Err(ArithFault::Memory) => Err(AllocError),
    }
}

// The item's answer, with want of memory apart.
#[tactic(auto, using(crate::proofs::Answered::index_gave, crate::proofs::Answered::index_raised))]
fn index_answer(
    alloc: Global,
    whole: &Value,
    at: &Value,
) -> Result<Result<Value, Trouble>, AllocError>
    ensures { IfOk result (λ answer. answer ≡ index_of whole.now at.now) }
{
    match index(alloc, whole, at) {
        Ok(value) => Ok(Ok(value)),
        Err(IndexFault::Trouble(trouble)) => Ok(Err(trouble)),
        Err(IndexFault::Memory) => Err(AllocError),
    }
}

/// `BINARY_OP`
pub fn binary_op(alloc: Global, frame: &mut Frame, op: ArithOp) -> Result<Ending, AllocError>
    requires { frame.old.index < 65536 }
    ensures { IfOk result (λ ending. spec.binary_op (Option.Some op) frame.old ≡ record { frame = frame.new; ending = ending }) }
{
    let Some(b) = frame.stack.pop() else {
        return Ok(Ending::Misses);
    };
    let Some(a) = frame.stack.pop() else {
        return Ok(Ending::Misses);
    };
    let given = arith_answer(alloc, op, &a, &b)?;
    give(alloc, frame, given)
}

/// `COMPARE_OP`
pub fn compare_op(alloc: Global, frame: &mut Frame, op: CmpOp) -> Result<Ending, AllocError>
    requires { frame.old.index < 65536 }
    ensures { IfOk result (λ ending. spec.compare_op (Option.Some op) frame.old ≡ record { frame = frame.new; ending = ending }) }
{
    let Some(b) = frame.stack.pop() else {
        return Ok(Ending::Misses);
    };
    let Some(a) = frame.stack.pop() else {
        return Ok(Ending::Misses);
    };
    match compare(op, &a, &b) {
        Ok(truth) => push(frame, Value::Bool(truth)),
        Err(trouble) => raise(alloc, trouble),
    }
}

// A truth, or its opposite where the argument is 1.
fn negated_by(argument: u32, truth: bool) -> bool
    ensures { result ≡ spec.negated_by argument truth }
{
    if argument == 1 { !truth } else { truth }
}

/// `CONTAINS_OP`
pub fn contains_op(alloc: Global, frame: &mut Frame, argument: u32) -> Result<Ending, AllocError>
    requires { frame.old.index < 65536 }
    ensures { IfOk result (λ ending. spec.on_two (spec.contains_op argument) frame.old frame.old.stack ≡ record { frame = frame.new; ending = ending }) }
{
    let Some(whole) = frame.stack.pop() else {
        return Ok(Ending::Misses);
    };
    let Some(item) = frame.stack.pop() else {
        return Ok(Ending::Misses);
    };
    match contains(&item, &whole) {
        Ok(truth) => push(frame, Value::Bool(negated_by(argument, truth))),
        Err(trouble) => raise(alloc, trouble),
    }
}

// Whether a value is None, True or False, by kind and value.
fn is_single(a: &Value, single: &Value) -> bool
    ensures { result ≡ spec.is_single a.now single.now }
{
    match (a, single) {
        (Value::None, Value::None) => true,
        (Value::Bool(a), Value::Bool(b)) => *a == *b,
        _ => false,
    }
}

/// `IS_OP`
pub fn is_op(frame: &mut Frame, argument: u32) -> Result<Ending, AllocError>
    requires { frame.old.index < 65536 }
    ensures { IfOk result (λ ending. spec.on_two (spec.is_op argument) frame.old frame.old.stack ≡ record { frame = frame.new; ending = ending }) }
{
    let Some(single) = frame.stack.pop() else {
        return Ok(Ending::Misses);
    };
    let Some(a) = frame.stack.pop() else {
        return Ok(Ending::Misses);
    };
    push(
        frame,
        Value::Bool(negated_by(argument, is_single(&a, &single))),
    )
}

/// `UNARY_NEGATIVE`
pub fn unary_negative(alloc: Global, frame: &mut Frame) -> Result<Ending, AllocError>
    requires { frame.old.index < 65536 }
    ensures { IfOk result (λ ending. spec.on_one arithmetic.negated frame.old frame.old.stack ≡ record { frame = frame.new; ending = ending }) }
{
    match frame.stack.pop() {
        None => Ok(Ending::Misses),
        Some(a) => give(alloc, frame, negate(&a)),
    }
}

/// `UNARY_NOT`
pub fn unary_not(frame: &mut Frame) -> Result<Ending, AllocError>
    requires { frame.old.index < 65536 }
    ensures { IfOk result (λ ending. spec.on_one spec.unary_not frame.old frame.old.stack ≡ record { frame = frame.new; ending = ending }) }
{
    match frame.stack.pop() {
        None => Ok(Ending::Misses),
        Some(a) => push(frame, Value::Bool(!is_true(&a))),
    }
}

/// `BINARY_SUBSCR`
pub fn binary_subscr(alloc: Global, frame: &mut Frame) -> Result<Ending, AllocError>
    requires { frame.old.index < 65536 }
    ensures { IfOk result (λ ending. spec.on_two index_of frame.old frame.old.stack ≡ record { frame = frame.new; ending = ending }) }
{
    let Some(at) = frame.stack.pop() else {
        return Ok(Ending::Misses);
    };
    let Some(whole) = frame.stack.pop() else {
        return Ok(Ending::Misses);
    };
    let given = index_answer(alloc, &whole, &at)?;
    give(alloc, frame, given)
}
