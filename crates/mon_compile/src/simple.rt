//! The code of statements without a block.

ghost use Rattle.std.specs.Prelude.{◌≡◌, ◌*◌, ◌+◌, ◌≤◌, [], ◌∷◌, ◌++◌, length};
ghost use Rattle.mon_events.specs.declared.op.Op.{Op};
ghost use Rattle.mon_compile.specs.declared.assembly.Argument.TheVariants.{Number};
ghost use Rattle.mon_compile.specs.Contexts as spec;
ghost use Rattle.mon_compile.specs.Emission.{Emits};
ghost use Rattle.mon_compile.specs.Expressions as scheme;
ghost use Rattle.mon_compile.specs.Faults.{most_locations};
ghost use Rattle.mon_compile.specs.Open.{open_context, depth_of};
ghost use Rattle.mon_compile.specs.Statements as statements;

use crate::assembly::Spot;
use crate::emitter::{EmitFault, Emitter};
use crate::expressions::binary_number;
use crate::surroundings::Surroundings;
use mon_events::Op;
use mon_trees::Text;
use mon_trees::tree::{BinaryOperator, Expression, Simple, Targets};
use mon_values::value::Value;

/// Whether an expression is a text alone.
pub fn is_lone_text(expression: &Expression) -> bool
    ensures { result ≡ statements.is_lone_text expression.now }
{
    matches!(expression, Expression::Text(_))
}

impl Emitter<'_> {
    /// The code of a statement without a block, on a line.
    #[cycle(statement)]
    pub fn simple(
        &mut self,
        context: &Surroundings,
        line: u32,
        simple: &Simple,
    ) -> Result<(), EmitFault>
        requires { depth_of context.now ≤ 2 * length self.old.code }
        ensures { Emits result self.old self.new (statements.simple_code self.old.locals line simple.now (open_context self.old.locals context.now)) }
    {
        let spot = self.at_line(context, line);
        match simple {
            Simple::Pass => self.put_plain(spot, Op::Nop),
            Simple::Break => self.break_loop(context, line),
            Simple::Continue => self.continue_loop(context, line),
            Simple::Return(value) => {
                self.returned(spot, value)?;
                self.leave_function(context, line)
            }
            Simple::Raise(None) => self.put_number(spot, Op::RaiseVarargs, 0),
            Simple::Raise(Some(value)) => self.ending(spot, value, Op::RaiseVarargs, 1),
            Simple::Augmented(name, op, value) => self.augmented(spot, name, *op, value),
            Simple::Assign(targets, value) => {
                self.expression(spot, value)?;
                self.store(spot, targets)
            }
            Simple::Expression(value) => {
                if is_lone_text(value) {
                    return Ok(());
                }
                self.ending(spot, value, Op::PopTop, 0)
            }
        }
    }

    // The value that a `return` gives: E(value) or LOAD_CONST None
    fn returned(&mut self, spot: Spot, value: &Option<Expression>) -> Result<(), EmitFault>
        requires { spot.stack ≤ 2 * length self.old.code }
        ensures { Emits result self.old self.new (scheme.or_none (statements.coder_of self.old.locals value.now) spot) }
    {
        match value {
            None => self.put_constant(spot, Value::None),
            Some(value) => self.expression(spot, value),
        }
    }

    // The value on top is returned: leave all entries; RETURN_VALUE
    #[cycle(statement)]
    fn leave_function(&mut self, context: &Surroundings, line: u32) -> Result<(), EmitFault>
        requires { depth_of context.now ≤ 2 * length self.old.code }
        ensures { Emits result self.old self.new (λ at. statements.leave_all (open_context self.old.locals context.now) at ++ (spec.put (spec.above 1 (spec.at_line line [])) Op.ReturnValue spec.none ∷ [])) }
    {
        self.leave_all(context)?;
        let spot = self.at_line(&Surroundings::Top, line);
        self.put_plain(spot.above(1), Op::ReturnValue)
    }

    /// An expression, and then one instruction with a number.
    pub fn ending(
        &mut self,
        spot: Spot,
        expression: &Expression,
        op: Op,
        number: u32,
    ) -> Result<(), EmitFault>
        requires { spot.stack ≤ 2 * length self.old.code }
        ensures { Emits result self.old self.new (λ at. scheme.expression_code self.old.locals expression.now spot at ++ (spec.put (spec.above 1 spot) op (Number number) ∷ [])) }
    {
        let up = self.above(spot, 1);
        self.expression(spot, expression)?;
        self.put_number(up, op, number)
    }

    // LOAD_FAST n; E(e); BINARY_OP op; STORE_FAST n
    fn augmented(
        &mut self,
        spot: Spot,
        name: &Text,
        op: BinaryOperator,
        expression: &Expression,
    ) -> Result<(), EmitFault>
        requires { spot.stack ≤ 2 * length self.old.code }
        ensures { Emits result self.old self.new (λ at. spec.put spot Op.LoadFast (Number (scheme.number_of_local self.old.locals name.now)) ∷ (scheme.expression_code self.old.locals expression.now (spec.above 1 spot) (at + 1) ++ (spec.put (spec.above 2 spot) Op.BinaryOp (Number (scheme.binary_number op)) ∷ (spec.put (spec.above 1 spot) Op.StoreFast (Number (scheme.number_of_local self.old.locals name.now)) ∷ [])))) }
    {
        let local = self.local(name);
        let up = self.above(spot, 1);
        let higher = self.above(spot, 2);
        self.put_number(spot, Op::LoadFast, local)?;
        self.expression(up, expression)?;
        self.put_number(higher, Op::BinaryOp, binary_number(op))?;
        self.put_number(up, Op::StoreFast, local)?;
        Ok(())
    }

    /// The value above a spot goes into what is assigned to.
    pub fn store(&mut self, spot: Spot, targets: &Targets) -> Result<(), EmitFault>
        requires { spot.stack ≤ 2 * length self.old.code }
        ensures { Emits result self.old self.new (λ at. scheme.store_code self.old.locals targets.now spot) }
    {
        let up = self.above(spot, 1);
        match targets {
            Targets::Name(name) => {
                let local = self.local(name);
                self.put_number(up, Op::StoreFast, local)
            }
            Targets::Tuple(names) => {
                let count = self.room_for(names.len())?;
                self.put_number(up, Op::UnpackSequence, count)?;
                self.store_names(spot, names.as_slice())
            }
        }
    }

    // The names of a tuple, the first on top.
    fn store_names(&mut self, spot: Spot, names: &[Text]) -> Result<(), EmitFault>
        requires spot { spot.stack ≤ 2 * most_locations }
        requires names { length names.now ≤ most_locations }
        ensures { Emits result self.old self.new (λ at. scheme.store_names self.old.locals names.now spot) }
    {
        let mut left = names;
        while let Some((name, others)) = left.split_first() {
            let local = self.local(name);
            let up = spot.above(left.len() as u32);
            self.put_number(up, Op::StoreFast, local)?;
            left = others;
        }
        Ok(())
    }
}
