ghost use Rattle.std.specs.Prelude.{◌≡◌};
ghost use Rattle.mon_forms.specs.Opcodes as spec;

use mon_events::Op;
use mon_values::operator::{ArithOp, CmpOp};

/// What the argument of an instruction is, as a listing shows it.
#[derive(Clone, Copy, Debug, PartialEq, Eq)]
pub enum ArgumentKind {
    /// There is none.
    Nothing,
    /// A constant of the code, by its number.
    Constant,
    /// A local of the code.
    Local,
    /// A name that the code looks for in the module.
    Global,
    /// A method of a generator, by the number of its builtin.
    Method,
    /// An operator of two values whose answer is a value.
    Arithmetic,
    /// A comparison.
    Comparison,
    /// The index that is jumped to.
    Target,
    /// A number of arguments or values, or of a form.
    Number,
}

/// The name of an opcode.
pub fn op_name(op: Op) -> &'static str
    ensures { result.now ≡ spec.op_name op }
{
    match op {
        Op::Nop => "NOP",
        Op::Resume => "RESUME",
        Op::LoadConst => "LOAD_CONST",
        Op::LoadFast => "LOAD_FAST",
        Op::StoreFast => "STORE_FAST",
        Op::DeleteFast => "DELETE_FAST",
        Op::LoadGlobal => "LOAD_GLOBAL",
        Op::LoadMethod => "LOAD_METHOD",
        Op::BinaryOp => "BINARY_OP",
        Op::CompareOp => "COMPARE_OP",
        Op::ContainsOp => "CONTAINS_OP",
        Op::IsOp => "IS_OP",
        Op::UnaryNegative => "UNARY_NEGATIVE",
        Op::UnaryNot => "UNARY_NOT",
        Op::BuildTuple => "BUILD_TUPLE",
        Op::UnpackSequence => "UNPACK_SEQUENCE",
        Op::BinarySubscr => "BINARY_SUBSCR",
        Op::Copy => "COPY",
        Op::Swap => "SWAP",
        Op::PopTop => "POP_TOP",
        Op::JumpForward => "JUMP_FORWARD",
        Op::JumpBackward => "JUMP_BACKWARD",
        Op::PopJumpIfFalse => "POP_JUMP_IF_FALSE",
        Op::PopJumpIfTrue => "POP_JUMP_IF_TRUE",
        Op::GetIter => "GET_ITER",
        Op::ForIter => "FOR_ITER",
        Op::PopJumpIfDone => "POP_JUMP_IF_DONE",
        Op::EndFor => "END_FOR",
        Op::Call => "CALL",
        Op::ReturnValue => "RETURN_VALUE",
        Op::ReturnGenerator => "RETURN_GENERATOR",
        Op::YieldValue => "YIELD_VALUE",
        Op::RaiseVarargs => "RAISE_VARARGS",
        Op::Reraise => "RERAISE",
        Op::PushExcInfo => "PUSH_EXC_INFO",
        Op::CheckExcMatch => "CHECK_EXC_MATCH",
        Op::PopExcept => "POP_EXCEPT",
    }
}

/// What the argument of an opcode is.
pub fn argument_kind(op: Op) -> ArgumentKind
    ensures { result ≡ spec.argument_kind op }
{
    match op {
        Op::LoadConst => ArgumentKind::Constant,
        Op::LoadFast | Op::StoreFast | Op::DeleteFast => ArgumentKind::Local,
        Op::LoadGlobal => ArgumentKind::Global,
        Op::LoadMethod => ArgumentKind::Method,
        Op::BinaryOp => ArgumentKind::Arithmetic,
        Op::CompareOp => ArgumentKind::Comparison,
        Op::JumpForward
        | Op::JumpBackward
        | Op::PopJumpIfFalse
        | Op::PopJumpIfTrue
        | Op::PopJumpIfDone => ArgumentKind::Target,
        Op::Resume
        | Op::ContainsOp
        | Op::IsOp
        | Op::BuildTuple
        | Op::UnpackSequence
        | Op::Copy
        | Op::Swap
        | Op::Call
        | Op::RaiseVarargs => ArgumentKind::Number,
        _ => ArgumentKind::Nothing,
    }
}

/// How an operator is spelled.
pub fn arith_word(op: ArithOp) -> &'static str
    ensures { result.now ≡ spec.arith_word op }
{
    match op {
        ArithOp::Add => "+",
        ArithOp::Sub => "-",
        ArithOp::Mul => "*",
        ArithOp::FloorDiv => "//",
        ArithOp::Mod => "%",
    }
}

/// How a comparison is spelled.
pub fn cmp_word(op: CmpOp) -> &'static str
    ensures { result.now ≡ spec.cmp_word op }
{
    match op {
        CmpOp::Eq => "==",
        CmpOp::Ne => "!=",
        CmpOp::Lt => "<",
        CmpOp::Le => "<=",
        CmpOp::Gt => ">",
        CmpOp::Ge => ">=",
    }
}
