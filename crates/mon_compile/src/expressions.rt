//! The code of expressions.

ghost use Rattle.std.specs.Prelude.{◌≡◌, ◌*◌, ◌+◌, ◌≤◌, [], ◌∷◌, ◌++◌, length, map};
ghost use Rattle.mon_events.specs.declared.op.Op.{Op};
ghost use Rattle.mon_compile.specs.declared.assembly.Argument.TheVariants.{Number};
ghost use Rattle.mon_compile.specs.Contexts as spec;
ghost use Rattle.mon_compile.specs.Emission.{Emits, one};
ghost use Rattle.mon_compile.specs.Expressions as scheme;

use crate::assembly::Spot;
use crate::emitter::{EmitFault, Emitter};
use mon_code::{arith_number, cmp_number};
use mon_events::Op;
use mon_trees::tree::{BinaryOperator, Comparison, Expression, Method, Single};
use mon_values::operator::{ArithOp, CmpOp};
use mon_values::value::Value;

impl Emitter<'_> {
    /// The code of an expression, which pushes one value.
    #[cycle(expression)]
    pub fn expression(&mut self, spot: Spot, expression: &Expression) -> Result<(), EmitFault>
        requires { spot.stack ≤ 2 * length self.old.code }
        ensures { Emits result self.old self.new (scheme.expression_code self.old.locals expression.now spot) }
    {
        match expression {
            Expression::Name(name) => self.put_name(spot, name),
            Expression::Integer(n) => self.put_constant(spot, Value::Int(*n)),
            Expression::Text(characters) => self.put_text(spot, characters),
            Expression::Single(single) => self.put_constant(spot, single_value(*single)),
            Expression::Empty => self.put_empty(spot),
            Expression::Tuple(parts) => self.tuple(spot, parts.as_slice()),
            Expression::Yield(_, None) => self.yield_none(spot),
            Expression::Yield(_, Some(value)) => self.yield_value(spot, value.get()),
            Expression::If(a, test, b) => self.conditional(spot, a.get(), test.get(), b.get()),
            Expression::Or(a, b) => self.short(spot, a.get(), Op::PopJumpIfTrue, b.get()),
            Expression::And(a, b) => self.short(spot, a.get(), Op::PopJumpIfFalse, b.get()),
            Expression::Not(a) => self.unary(spot, Op::UnaryNot, a.get()),
            Expression::Compare(op, a, b) => self.comparison(spot, *op, a.get(), b.get()),
            Expression::Is(a, single) => self.identity(spot, a.get(), 0, *single),
            Expression::IsNot(a, single) => self.identity(spot, a.get(), 1, *single),
            Expression::Binary(op, a, b) => {
                self.binary(spot, Op::BinaryOp, binary_number(*op), a.get(), b.get())
            }
            Expression::Negative(a) => self.unary(spot, Op::UnaryNegative, a.get()),
            Expression::Call(f, args) => self.call(spot, f.get(), args.as_slice()),
            Expression::Method(object, method, args) => {
                self.method_call(spot, object.get(), *method, args.as_slice())
            }
            Expression::Subscript(a, i) => {
                self.binary(spot, Op::BinarySubscr, 0, a.get(), i.get())
            }
        }
    }

    // LOAD_CONST None; YIELD_VALUE; RESUME 1 (-)
    fn yield_none(&mut self, spot: Spot) -> Result<(), EmitFault>
        requires { spot.stack ≤ 2 * length self.old.code }
        ensures { Emits result self.old self.new (scheme.yield_code (scheme.or_none None) spot) }
    {
        self.put_constant(spot, Value::None)?;
        self.put_yield(spot)
    }

    // E(value); YIELD_VALUE; RESUME 1 (-)
    #[cycle(expression)]
    fn yield_value(&mut self, spot: Spot, value: &Expression) -> Result<(), EmitFault>
        requires { spot.stack ≤ 2 * length self.old.code }
        ensures { Emits result self.old self.new (scheme.yield_code (scheme.expression_code self.old.locals value.now) spot) }
    {
        self.expression(spot, value)?;
        self.put_yield(spot)
    }

    // YIELD_VALUE; RESUME 1 (-), above a value.
    fn put_yield(&mut self, spot: Spot) -> Result<(), EmitFault>
        requires { spot.stack ≤ 2 * length self.old.code }
        ensures { Emits result self.old self.new (λ at. spec.put (spec.above 1 spot) Op.YieldValue spec.none ∷ (spec.put (spec.above 1 (spec.bare spot)) Op.Resume (Number 1) ∷ [])) }
    {
        let up = self.above(spot, 1);
        self.put_plain(up, Op::YieldValue)?;
        self.put_number(up.bare(), Op::Resume, 1)
    }

    // An operand, and then an operator.
    #[cycle(expression)]
    fn unary(&mut self, spot: Spot, op: Op, a: &Expression) -> Result<(), EmitFault>
        requires { spot.stack ≤ 2 * length self.old.code }
        ensures { Emits result self.old self.new (scheme.one_code (scheme.expression_code self.old.locals a.now) op spot) }
    {
        let up = self.above(spot, 1);
        self.expression(spot, a)?;
        self.put_plain(up, op)
    }

    // Two operands, and then an operator with a number.
    #[cycle(expression)]
    fn binary(
        &mut self,
        spot: Spot,
        op: Op,
        number: u32,
        a: &Expression,
        b: &Expression,
    ) -> Result<(), EmitFault>
        requires { spot.stack ≤ 2 * length self.old.code }
        ensures { Emits result self.old self.new (scheme.two_code (scheme.expression_code self.old.locals a.now) (scheme.expression_code self.old.locals b.now) op number spot) }
    {
        let up = self.above(spot, 1);
        let higher = self.above(spot, 2);
        self.expression(spot, a)?;
        self.expression(up, b)?;
        self.put_number(higher, op, number)?;
        Ok(())
    }

    // Two operands, and then COMPARE_OP or CONTAINS_OP.
    #[cycle(expression)]
    fn comparison(
        &mut self,
        spot: Spot,
        op: Comparison,
        a: &Expression,
        b: &Expression,
    ) -> Result<(), EmitFault>
        requires { spot.stack ≤ 2 * length self.old.code }
        ensures { Emits result self.old self.new (scheme.two_code (scheme.expression_code self.old.locals a.now) (scheme.expression_code self.old.locals b.now) (scheme.comparison_op op) (scheme.comparison_number op) spot) }
    {
        self.binary(spot, comparison_op(op), comparison_number(op), a, b)
    }

    // An operand, and then IS_OP with a single.
    #[cycle(expression)]
    fn identity(
        &mut self,
        spot: Spot,
        a: &Expression,
        number: u32,
        single: Single,
    ) -> Result<(), EmitFault>
        requires { spot.stack ≤ 2 * length self.old.code }
        ensures { Emits result self.old self.new (scheme.two_code (scheme.expression_code self.old.locals a.now) (scheme.constant_code (scheme.single_value single)) Op.IsOp number spot) }
    {
        let up = self.above(spot, 1);
        let higher = self.above(spot, 2);
        self.expression(spot, a)?;
        self.put_constant(up, single_value(single))?;
        self.put_number(higher, Op::IsOp, number)
    }

    // Expressions one after another, each above the values of those before.
    #[cycle(expression)]
    fn expressions(&mut self, spot: Spot, expressions: &[Expression]) -> Result<(), EmitFault>
        requires { spot.stack ≤ 2 * length self.old.code }
        ensures { Emits result self.old self.new (scheme.in_turn (map (scheme.expression_code self.old.locals) expressions.now) spot) }
    {
        let mut up = spot;
        for expression in expressions {
            self.expression(up, expression)?;
            up = self.above(up, 1);
        }
        Ok(())
    }

    // E of each; BUILD_TUPLE n
    #[cycle(expression)]
    fn tuple(&mut self, spot: Spot, parts: &[Expression]) -> Result<(), EmitFault>
        requires { spot.stack ≤ 2 * length self.old.code }
        ensures { Emits result self.old self.new (scheme.tuple_code (map (scheme.expression_code self.old.locals) parts.now) spot) }
    {
        self.expressions(spot, parts)?;
        let count = self.count(parts.len());
        let up = self.above(spot, count);
        self.put_number(up, Op::BuildTuple, count)
    }

    // E(f); E of each; CALL n
    #[cycle(expression)]
    fn call(&mut self, spot: Spot, f: &Expression, args: &[Expression]) -> Result<(), EmitFault>
        requires { spot.stack ≤ 2 * length self.old.code }
        ensures { Emits result self.old self.new (scheme.call_code (scheme.expression_code self.old.locals f.now) (map (scheme.expression_code self.old.locals) args.now) spot) }
    {
        let up = self.above(spot, 1);
        self.expression(spot, f)?;
        self.arguments(up, args, args.len())?;
        Ok(())
    }

    // E(object); LOAD_METHOD m; E of each; CALL n+1
    #[cycle(expression)]
    fn method_call(
        &mut self,
        spot: Spot,
        object: &Expression,
        method: Method,
        args: &[Expression],
    ) -> Result<(), EmitFault>
        requires { spot.stack ≤ 2 * length self.old.code }
        ensures { Emits result self.old self.new (scheme.method_code (scheme.expression_code self.old.locals object.now) (scheme.method_number method) (map (scheme.expression_code self.old.locals) args.now) spot) }
    {
        let up = self.above(spot, 1);
        let higher = self.above(spot, 2);
        self.expression(spot, object)?;
        self.put_number(up, Op::LoadMethod, method_number(method))?;
        self.arguments(higher, args, args.len() + 1)?;
        Ok(())
    }

    // E of each; CALL with a count
    #[cycle(expression)]
    fn arguments(&mut self, spot: Spot, args: &[Expression], count: usize) -> Result<(), EmitFault>
        requires spot { spot.stack ≤ 2 * length self.old.code }
        requires near { count ≤ length args.now + 1 }
        ensures { Emits result self.old self.new (λ at. scheme.in_turn (map (scheme.expression_code self.old.locals) args.now) spot at ++ (spec.put (spec.above (length args.now) spot) Op.Call (Number count) ∷ [])) }
    {
        self.expressions(spot, args)?;
        let values = self.count(args.len());
        let up = self.above(spot, values);
        let number = self.count(count);
        self.put_number(up, Op::Call, number)
    }

    // E(a); COPY 1; the jump to x; POP_TOP; E(b); x:
    #[cycle(expression)]
    fn short(
        &mut self,
        spot: Spot,
        a: &Expression,
        jump: Op,
        b: &Expression,
    ) -> Result<(), EmitFault>
        requires { spot.stack ≤ 2 * length self.old.code }
        ensures { Emits result self.old self.new (scheme.short_code (scheme.expression_code self.old.locals a.now) (scheme.expression_code self.old.locals b.now) jump spot) }
    {
        let up = self.above(spot, 1);
        let higher = self.above(spot, 2);
        self.expression(spot, a)?;
        self.put_number(up, Op::Copy, 1)?;
        let hole = self.here();
        self.put_plain(higher, jump)?;
        self.put_plain(up, Op::PopTop)?;
        self.expression(spot, b)?;
        self.jump_here(hole, higher, jump);
        Ok(())
    }

    // E(test); POP_JUMP_IF_FALSE x; E(a); JUMP_FORWARD y (-); x: E(b); y:
    #[cycle(expression)]
    fn conditional(
        &mut self,
        spot: Spot,
        a: &Expression,
        test: &Expression,
        b: &Expression,
    ) -> Result<(), EmitFault>
        requires { spot.stack ≤ 2 * length self.old.code }
        ensures { Emits result self.old self.new (scheme.conditional_code (scheme.expression_code self.old.locals a.now) (scheme.expression_code self.old.locals test.now) (scheme.expression_code self.old.locals b.now) spot) }
    {
        let up = self.above(spot, 1);
        let low = up.bare();
        self.expression(spot, test)?;
        let branch = self.here();
        self.put_plain(up, Op::PopJumpIfFalse)?;
        self.expression(spot, a)?;
        let jump = self.here();
        self.put_plain(low, Op::JumpForward)?;
        let other = self.here();
        self.expression(spot, b)?;
        let end = self.here();
        self.set_jump(branch, up, Op::PopJumpIfFalse, other);
        self.set_jump(jump, low, Op::JumpForward, end);
        Ok(())
    }
}

/// The value of `None`, `True` or `False`.
pub fn single_value(single: Single) -> Value
    ensures { result ≡ scheme.single_value single }
{
    match single {
        Single::None => Value::None,
        Single::True => Value::Bool(true),
        Single::False => Value::Bool(false),
    }
}

/// The argument of `BINARY_OP`.
pub fn binary_number(op: BinaryOperator) -> u32
    ensures { result ≡ scheme.binary_number op }
{
    let op = match op {
        BinaryOperator::Add => ArithOp::Add,
        BinaryOperator::Subtract => ArithOp::Sub,
        BinaryOperator::Multiply => ArithOp::Mul,
        BinaryOperator::FloorDivide => ArithOp::FloorDiv,
        BinaryOperator::Remainder => ArithOp::Mod,
    };
    arith_number(op)
}

fn comparison_op(op: Comparison) -> Op
    ensures { result ≡ scheme.comparison_op op }
{
    match op {
        Comparison::In | Comparison::NotIn => Op::ContainsOp,
        _ => Op::CompareOp,
    }
}

fn comparison_number(op: Comparison) -> u32
    ensures { result ≡ scheme.comparison_number op }
{
    match op {
        Comparison::Equal => cmp_number(CmpOp::Eq),
        Comparison::NotEqual => cmp_number(CmpOp::Ne),
        Comparison::Less => cmp_number(CmpOp::Lt),
        Comparison::LessEqual => cmp_number(CmpOp::Le),
        Comparison::Greater => cmp_number(CmpOp::Gt),
        Comparison::GreaterEqual => cmp_number(CmpOp::Ge),
        Comparison::In => 0,
        Comparison::NotIn => 1,
    }
}

// The numbers of the builtins `send`, `throw` and `close`.
fn method_number(method: Method) -> u32
    ensures { result ≡ scheme.method_number method }
{
    match method {
        Method::Send => 11,
        Method::Throw => 12,
        Method::Close => 13,
    }
}
