ghost use Rattle.std.specs.Prelude.{◌≡◌, ◌≢◌, ◌<◌, ◌++◌, ◌*◌, nat_le, IfOk, pos, negsuc, FitsSigned};
ghost use Rattle.std.specs.List.{repeat};
ghost use Rattle.std.specs.Option.{SomeIff};
ghost use Rattle.std.specs.Int.{w64};
ghost use Rattle.mon_values.specs.declared.value.Value.{Text as the_text, Tuple as the_tuple};
ghost use Rattle.mon_values.specs.Answers.{AnswersArith};
ghost use Rattle.mon_values.specs.Arithmetic as spec;
ghost use Rattle.mon_values.specs.Integers as integers;
ghost use Rattle.mon_values.specs.Weights as weights;

use crate::fault::{ArithFault, Trouble};
use crate::operator::ArithOp;
use crate::text::{Text, TextBuffer};
use crate::value::{Tuple, Value, append_copies};
use crate::weight::{MAX_WEIGHT, made_tuple, spend_items};
use mon_shared::SharedItems;
use std::alloc::{AllocError, Global};

/// The integer that a value stands for: an Int, or 0 or 1 for a Bool.
pub fn integer(v: &Value) -> Option<i64>
    ensures { result ≡ spec.integer v.now }
{
    match v {
        Value::Bool(b) => Some(*b as i64),
        Value::Int(n) => Some(*n),
        _ => None,
    }
}

/// The integer as a value, or OverflowError where it left 64 bits.
fn in_range(answer: Option<i64>) -> Result<Value, Trouble>
    ensures { result ≡ spec.value_or_overflow answer }
{
    match answer {
        Some(n) => Ok(Value::Int(n)),
        None => Err(Trouble::OUT_OF_RANGE),
    }
}

/// `a // b`, rounded down, where b is neither 0 nor -1.
fn floor_quotient(a: i64, b: i64) -> i64
    requires nonzero { b ≢ pos 0 }
    requires no_overflow { b ≢ negsuc 0 }
    ensures { result ≡ integers.floor_div a b }
{
    let quotient = a.div_euclid(b);
    if b > 0 {
        return quotient;
    }
    if a.rem_euclid(b) == 0 {
        return quotient;
    }
    quotient - 1
}

/// `a // b`, rounded down; none where it leaves 64 bits.
fn floor_div(a: i64, b: i64) -> Option<i64>
    requires { b ≢ pos 0 }
    ensures { SomeIff result (FitsSigned w64 (integers.floor_div a b)) (integers.floor_div a b) }
{
    if b == -1 {
        a.checked_neg()
    } else {
        Some(floor_quotient(a, b))
    }
}

/// `a % b`, with the sign of b.
fn floor_mod(a: i64, b: i64) -> i64
    requires { b ≢ pos 0 }
    ensures { result ≡ integers.floor_mod a b }
{
    if b == -1 {
        return 0;
    }
    let remainder = a.rem_euclid(b);
    if b > 0 {
        return remainder;
    }
    if remainder == 0 {
        return 0;
    }
    remainder + b
}

/// What an operator gives of two integers.
#[tactic(auto, using(crate::proofs::Arithmetics::checked))]
fn of_integers(op: ArithOp, a: i64, b: i64) -> Result<Value, Trouble>
    ensures { result ≡ spec.of_integers op a b }
{
    match op {
        ArithOp::Add => in_range(a.checked_add(b)),
        ArithOp::Sub => in_range(a.checked_sub(b)),
        ArithOp::Mul => in_range(a.checked_mul(b)),
        ArithOp::FloorDiv => divide(a, b),
        ArithOp::Mod => modulo(a, b),
    }
}

fn divide(a: i64, b: i64) -> Result<Value, Trouble>
    ensures { result ≡ spec.of_integers ArithOp.FloorDiv a b }
{
    if b == 0 {
        return Err(Trouble::DIVISION_BY_ZERO);
    }
    in_range(floor_div(a, b))
}

fn modulo(a: i64, b: i64) -> Result<Value, Trouble>
    ensures { result ≡ spec.of_integers ArithOp.Mod a b }
{
    if b == 0 {
        return Err(Trouble::DIVISION_BY_ZERO);
    }
    in_range(Some(floor_mod(a, b)))
}

/// `-v` of an integer: unsupported for another value, OverflowError for the least one.
pub fn negate(v: &Value) -> Result<Value, Trouble>
    ensures { result ≡ spec.negated v.now }
{
    match integer(v) {
        Some(n) => in_range(n.checked_neg()),
        None => Err(Trouble::UNSUPPORTED_OPERAND),
    }
}

/// Two texts in a row.
fn join_texts(alloc: Global, a: &Text, b: &Text) -> Result<Value, ArithFault>
    ensures { AnswersArith result (weights.made (the_text (a.now ++ b.now))) }
{
    let limit = MAX_WEIGHT as usize;
    if a.len() > limit || b.len() > limit - a.len() {
        return Err(ArithFault::Trouble(Trouble::TOO_LARGE));
    }
    let mut text = TextBuffer::new(alloc);
    text.append(a.chars())?;
    text.append(b.chars())?;
    Ok(Value::Text(text.into_text()?))
}

fn joined(alloc: Global, a: &[Value], b: &[Value]) -> Result<Tuple, AllocError>
    ensures { IfOk result (λ items. items ≡ a.now ++ b.now) }
{
    let mut items = Vec::new(alloc);
    append_copies(&mut items, a)?;
    append_copies(&mut items, b)?;
    SharedItems::from_vec(items)
}

/// Two tuples in a row.
fn join_tuples(alloc: Global, a: &[Value], b: &[Value]) -> Result<Value, ArithFault>
    ensures { AnswersArith result (weights.made (the_tuple (a.now ++ b.now))) }
{
    let items = joined(alloc, a, b)?;
    made_tuple(items).map_err(ArithFault::Trouble)
}

/// How often an integer repeats: not at all below 1.
fn times(count: i64) -> u64
    ensures { result ≡ integers.times count }
{
    if count < 0 { 0 } else { count as u64 }
}

/// Whether so many parts of a weight keep within a limit.
fn product_fits(count: u64, each: u64, limit: u64) -> bool
    ensures { result ≡ nat_le (count * each) limit }
{
    match count.checked_mul(each) {
        Some(total) => total <= limit,
        None => false,
    }
}

/// A text so many times in a row.
fn repeat_text(alloc: Global, text: &Text, count: u64) -> Result<Value, ArithFault>
    ensures { AnswersArith result (weights.made (the_text (repeat count text.now))) }
{
    if !product_fits(count, text.len() as u64, MAX_WEIGHT) {
        return Err(ArithFault::Trouble(Trouble::TOO_LARGE));
    }
    if text.is_empty() {
        return Ok(Value::Text(Text::new()));
    }
    Ok(Value::Text(copies_of_text(alloc, text, count)?))
}

#[tactic(auto, using(crate::proofs::Weighing::repeat_more))]
fn copies_of_text(alloc: Global, text: &Text, count: u64) -> Result<Text, AllocError>
    ensures { IfOk result (λ copies. copies ≡ repeat count text.now) }
{
    let mut copies = TextBuffer::new(alloc);
    for _turn in 0..count {
        copies.append(text.chars())?;
    }
    copies.into_text()
}

/// The items of a tuple so many times in a row.
fn repeat_tuple(alloc: Global, items: &[Value], count: u64) -> Result<Value, ArithFault>
    ensures { AnswersArith result (weights.made (the_tuple (repeat count items.now))) }
{
    if count == 0 {
        return Ok(Value::Tuple(SharedItems::new()));
    }
    if items.is_empty() {
        return Ok(Value::Tuple(SharedItems::new()));
    }
    let Some(left) = spend_items(items, MAX_WEIGHT - 1) else {
        return Err(ArithFault::Trouble(Trouble::TOO_LARGE));
    };
    if !product_fits(count, MAX_WEIGHT - 1 - left, MAX_WEIGHT - 1) {
        return Err(ArithFault::Trouble(Trouble::TOO_LARGE));
    }
    let copies = copies_of_items(alloc, items, count)?;
    made_tuple(copies).map_err(ArithFault::Trouble)
}

#[tactic(auto, using(crate::proofs::Weighing::repeat_more))]
fn copies_of_items(alloc: Global, items: &[Value], count: u64) -> Result<Tuple, AllocError>
    ensures { IfOk result (λ copies. copies ≡ repeat count items.now) }
{
    let mut copies = Vec::new(alloc);
    for _turn in 0..count {
        append_copies(&mut copies, items)?;
    }
    SharedItems::from_vec(copies)
}

/// What an operator gives of two values where both are integers, which alone are supported.
fn only_integers(op: ArithOp, a: &Value, b: &Value) -> Result<Value, ArithFault>
    ensures { AnswersArith result (spec.only_integers op (spec.integer a.now) (spec.integer b.now)) }
{
    match (integer(a), integer(b)) {
        (Some(a), Some(b)) => of_integers(op, a, b).map_err(ArithFault::Trouble),
        _ => Err(ArithFault::Trouble(Trouble::UNSUPPORTED_OPERAND)),
    }
}

fn add(alloc: Global, a: &Value, b: &Value) -> Result<Value, ArithFault>
    ensures { AnswersArith result (spec.arith_of ArithOp.Add a.now b.now) }
{
    match (a, b) {
        (Value::Text(a), Value::Text(b)) => join_texts(alloc, a, b),
        (Value::Tuple(a), Value::Tuple(b)) => join_tuples(alloc, a.as_slice(), b.as_slice()),
        _ => only_integers(ArithOp::Add, a, b),
    }
}

/// A text or a tuple so many times in a row, where the other operand is an integer.
fn repeat_sequence(alloc: Global, sequence: &Value, count: i64) -> Result<Value, ArithFault>
    ensures { AnswersArith result (spec.repeated (spec.operand sequence.now) count) }
{
    match sequence {
        Value::Text(text) => repeat_text(alloc, text, times(count)),
        Value::Tuple(items) => repeat_tuple(alloc, items.as_slice(), times(count)),
        _ => Err(ArithFault::Trouble(Trouble::UNSUPPORTED_OPERAND)),
    }
}

fn multiply(alloc: Global, a: &Value, b: &Value) -> Result<Value, ArithFault>
    ensures { AnswersArith result (spec.arith_of ArithOp.Mul a.now b.now) }
{
    match (integer(a), integer(b)) {
        (Some(_), Some(_)) => only_integers(ArithOp::Mul, a, b),
        (None, Some(count)) => repeat_sequence(alloc, a, count),
        (Some(count), None) => repeat_sequence(alloc, b, count),
        (None, None) => Err(ArithFault::Trouble(Trouble::UNSUPPORTED_OPERAND)),
    }
}

/// What an operator of arithmetic gives. A value that it makes keeps the limits of weight and depth; where it repeats one, its weight is looked at before a copy is made.
pub fn arith(alloc: Global, op: ArithOp, a: &Value, b: &Value) -> Result<Value, ArithFault>
    ensures { AnswersArith result (spec.arith_of op a.now b.now) }
{
    match op {
        ArithOp::Add => add(alloc, a, b),
        ArithOp::Mul => multiply(alloc, a, b),
        ArithOp::Sub => only_integers(ArithOp::Sub, a, b),
        ArithOp::FloorDiv => only_integers(ArithOp::FloorDiv, a, b),
        ArithOp::Mod => only_integers(ArithOp::Mod, a, b),
    }
}
