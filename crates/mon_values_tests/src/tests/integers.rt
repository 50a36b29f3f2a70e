use mon_values::arith::{arith, negate};
use mon_values::fault::ArithFault;
use mon_values::operator::ArithOp;
use mon_values::value::Value;
use std::alloc::Global;
use std::process::Abort;

/// An operator of two integers, and the integer that it gives, or none where an exception of this row is raised.
type IntegerRow = (ArithOp, i64, i64, Result<i64, u8>);

fn integer_answer(alloc: Global, op: ArithOp, a: i64, b: i64) -> Result<i64, u8> {
    match arith(alloc, op, &Value::Int(a), &Value::Int(b)) {
        Ok(Value::Int(n)) => Ok(n),
        Ok(_) => Err(0),
        Err(ArithFault::Trouble(trouble)) => Err(trouble.0),
        Err(ArithFault::Memory) => Err(100),
    }
}

fn check_integers(rt: &impl Abort, alloc: Global, rows: &[IntegerRow]) {
    for (op, a, b, want) in rows {
        assert_eq!(rt; integer_answer(alloc, *op, *a, *b), *want, "{op:?} {a} {b}");
    }
}

static QUOTIENT_ROWS: &[IntegerRow] = &[
    (ArithOp::FloorDiv, 7, 2, Ok(3)),
    (ArithOp::FloorDiv, -7, 2, Ok(-4)),
    (ArithOp::FloorDiv, 7, -2, Ok(-4)),
    (ArithOp::FloorDiv, -7, -2, Ok(3)),
    (ArithOp::FloorDiv, -6, 2, Ok(-3)),
    (ArithOp::FloorDiv, 6, -2, Ok(-3)),
    (ArithOp::FloorDiv, 0, -5, Ok(0)),
    (ArithOp::FloorDiv, -1, i64::MAX, Ok(-1)),
    (ArithOp::FloorDiv, 1, i64::MIN, Ok(-1)),
    (ArithOp::FloorDiv, i64::MIN, -1, Err(15)),
    (ArithOp::FloorDiv, i64::MIN, 1, Ok(i64::MIN)),
    (ArithOp::FloorDiv, i64::MIN, i64::MIN, Ok(1)),
    (ArithOp::FloorDiv, i64::MIN, i64::MAX, Ok(-2)),
    (ArithOp::FloorDiv, i64::MAX, i64::MIN, Ok(-1)),
    (ArithOp::FloorDiv, i64::MAX, -1, Ok(-9223372036854775807)),
    (ArithOp::FloorDiv, i64::MAX, 1, Ok(i64::MAX)),
    (ArithOp::FloorDiv, i64::MAX, i64::MAX, Ok(1)),
    (ArithOp::FloorDiv, i64::MIN, 2, Ok(-4611686018427387904)),
    (ArithOp::FloorDiv, i64::MAX, -2, Ok(-4611686018427387904)),
    (ArithOp::FloorDiv, 1, 0, Err(14)),
    (ArithOp::FloorDiv, i64::MIN, 0, Err(14)),
];

#[test]
fn quotients_round_down(rt: HostRuntime) {
    check_integers(&rt, rt.alloc(), QUOTIENT_ROWS);
}

static REMAINDER_ROWS: &[IntegerRow] = &[
    (ArithOp::Mod, 7, 2, Ok(1)),
    (ArithOp::Mod, -7, 2, Ok(1)),
    (ArithOp::Mod, 7, -2, Ok(-1)),
    (ArithOp::Mod, -7, -2, Ok(-1)),
    (ArithOp::Mod, 6, -3, Ok(0)),
    (ArithOp::Mod, -6, 3, Ok(0)),
    (ArithOp::Mod, 0, -5, Ok(0)),
    (ArithOp::Mod, i64::MIN, -1, Ok(0)),
    (ArithOp::Mod, i64::MIN, 1, Ok(0)),
    (ArithOp::Mod, i64::MAX, i64::MIN, Ok(-1)),
    (ArithOp::Mod, i64::MIN, i64::MAX, Ok(9223372036854775806)),
    (ArithOp::Mod, 1, i64::MIN, Ok(-9223372036854775807)),
    (ArithOp::Mod, -1, i64::MAX, Ok(9223372036854775806)),
    (ArithOp::Mod, i64::MAX, -1, Ok(0)),
    (ArithOp::Mod, i64::MAX, i64::MAX, Ok(0)),
    (ArithOp::Mod, i64::MIN, i64::MIN, Ok(0)),
    (ArithOp::Mod, i64::MAX, -2, Ok(-1)),
    (ArithOp::Mod, 1, 0, Err(14)),
    (ArithOp::Mod, i64::MIN, 0, Err(14)),
];

#[test]
fn remainders_have_the_sign_of_the_divisor(rt: HostRuntime) {
    check_integers(&rt, rt.alloc(), REMAINDER_ROWS);
}

static SUM_ROWS: &[IntegerRow] = &[
    (ArithOp::Add, i64::MAX, 1, Err(15)),
    (ArithOp::Add, i64::MAX, i64::MIN, Ok(-1)),
    (ArithOp::Add, i64::MIN, -1, Err(15)),
    (ArithOp::Add, i64::MIN, i64::MIN, Err(15)),
    (ArithOp::Sub, i64::MIN, 1, Err(15)),
    (ArithOp::Sub, i64::MAX, -1, Err(15)),
    (ArithOp::Sub, -1, i64::MAX, Ok(i64::MIN)),
    (ArithOp::Sub, 0, i64::MIN, Err(15)),
    (ArithOp::Mul, i64::MIN, -1, Err(15)),
    (ArithOp::Mul, 4294967296, 2147483648, Err(15)),
    (ArithOp::Mul, 4294967296, -2147483648, Ok(i64::MIN)),
    (ArithOp::Mul, i64::MAX, -1, Ok(-9223372036854775807)),
    (ArithOp::Mul, i64::MAX, i64::MAX, Err(15)),
    (ArithOp::Mul, i64::MIN, 1, Ok(i64::MIN)),
    (ArithOp::Mul, 3, -4, Ok(-12)),
];

#[test]
fn sums_and_products_stay_in_64_bits(rt: HostRuntime) {
    check_integers(&rt, rt.alloc(), SUM_ROWS);
}

fn negated_is(v: &Value, want: Result<i64, u8>) -> bool {
    match negate(v) {
        Ok(Value::Int(n)) => want == Ok(n),
        Ok(_) => false,
        Err(trouble) => want == Err(trouble.0),
    }
}

#[test]
fn only_an_integer_has_a_negative(rt: HostRuntime) {
    assert!(rt; negated_is(&Value::Int(5), Ok(-5)));
    assert!(rt; negated_is(&Value::Int(i64::MAX), Ok(-9223372036854775807)));
    assert!(rt; negated_is(&Value::Int(i64::MIN), Err(15)));
    assert!(rt; negated_is(&Value::Bool(true), Ok(-1)));
    assert!(rt; negated_is(&Value::None, Err(1)));
}
