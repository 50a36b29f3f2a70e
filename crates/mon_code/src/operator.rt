ghost use Rattle.std.specs.Prelude.{◌≡◌};
ghost use Rattle.mon_code.specs.Operators as spec;

use mon_values::operator::{ArithOp, CmpOp};

/// The argument of `BINARY_OP` for an operator.
pub fn arith_number(op: ArithOp) -> u32
    ensures { result ≡ spec.arith_number op }
{
    match op {
        ArithOp::Add => 0,
        ArithOp::Sub => 1,
        ArithOp::Mul => 2,
        ArithOp::FloorDiv => 3,
        ArithOp::Mod => 4,
    }
}

/// The operator of a `BINARY_OP` with this argument.
pub fn arith_op_of_number(number: u32) -> Option<ArithOp>
    ensures { result ≡ spec.arith_op_of number }
{
    match number {
        0 => Some(ArithOp::Add),
        1 => Some(ArithOp::Sub),
        2 => Some(ArithOp::Mul),
        3 => Some(ArithOp::FloorDiv),
        4 => Some(ArithOp::Mod),
        _ => None,
    }
}

/// The argument of `COMPARE_OP` for an operator.
pub fn cmp_number(op: CmpOp) -> u32
    ensures { result ≡ spec.cmp_number op }
{
    match op {
        CmpOp::Eq => 0,
        CmpOp::Ne => 1,
        CmpOp::Lt => 2,
        CmpOp::Le => 3,
        CmpOp::Gt => 4,
        CmpOp::Ge => 5,
    }
}

/// The operator of a `COMPARE_OP` with this argument.
pub fn cmp_op_of_number(number: u32) -> Option<CmpOp>
    ensures { result ≡ spec.cmp_op_of number }
{
    match number {
        0 => Some(CmpOp::Eq),
        1 => Some(CmpOp::Ne),
        2 => Some(CmpOp::Lt),
        3 => Some(CmpOp::Le),
        4 => Some(CmpOp::Gt),
        5 => Some(CmpOp::Ge),
        _ => None,
    }
}
