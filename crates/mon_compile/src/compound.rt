//! The code of statements with blocks.

ghost use Rattle.std.specs.Prelude.{◌≡◌, ◌*◌, ◌<◌, ◌≤◌, length, map};
ghost use Rattle.mon_compile.specs.Contexts as spec;
ghost use Rattle.mon_compile.specs.Emission.{Emits};
ghost use Rattle.mon_compile.specs.Expressions as scheme;
ghost use Rattle.mon_compile.specs.Open.{open_context, depth_of, inside};
ghost use Rattle.mon_compile.specs.Statements as statements;

use crate::assembly::Label;
use crate::emitter::{EmitFault, Emitter};
use crate::surroundings::Surroundings;
use mon_events::Op;
use mon_trees::tree::{Expression, Statement, Targets};

impl Emitter<'_> {
    /// The code of a statement.
    #[cycle(statement)]
    pub fn statement(
        &mut self,
        context: &Surroundings,
        statement: &Statement,
    ) -> Result<(), EmitFault>
        requires { depth_of context.now ≤ 2 * length self.old.code }
        ensures { Emits result self.old self.new (statements.statement_code self.old.locals statement.now (open_context self.old.locals context.now)) }
    {
        match statement {
            Statement::Simple(line, simple) => self.simple(context, *line, simple),
            Statement::If(line, test, body, other) => {
                self.branch(context, *line, test, body.as_slice(), other.as_slice())
            }
            Statement::While(line, test, body) => {
                self.while_loop(context, *line, test, body.as_slice())
            }
            Statement::For(line, targets, whole, body) => {
                self.for_loop(context, *line, targets, whole, body.as_slice())
            }
            Statement::Try(line, body, clauses, last) => {
                let (body, clauses) = (body.as_slice(), clauses.as_slice());
                self.try_statement(context, *line, body, clauses, last.as_slice())
            }
        }
    }

    /// The code of statements one after another.
    #[cycle(statement)]
    pub fn block(&mut self, context: &Surroundings, body: &[Statement]) -> Result<(), EmitFault>
        requires { depth_of context.now ≤ 2 * length self.old.code }
        ensures { Emits result self.old self.new (statements.block_code self.old.locals body.now (open_context self.old.locals context.now)) }
    {
        for statement in body {
            self.statement(context, statement)?;
        }
        Ok(())
    }

    // x: E(test); POP_JUMP_IF_FALSE y; the body; JUMP_BACKWARD x (-); y:
    #[cycle(statement)]
    fn while_loop(
        &mut self,
        context: &Surroundings,
        line: u32,
        test: &Expression,
        body: &[Statement],
    ) -> Result<(), EmitFault>
        requires { depth_of context.now ≤ 2 * length self.old.code }
        ensures { Emits result self.old self.new (statements.while_code line (scheme.expression_code self.old.locals test.now) (statements.block_code self.old.locals body.now) (open_context self.old.locals context.now)) }
    {
        let start = self.here();
        let spot = self.at_line(context, line);
        let low = self.no_line(context);
        let up = self.above(spot, 1);
        self.expression(spot, test)?;
        let branch = self.here();
        self.put_plain(up, Op::PopJumpIfFalse)?;
        self.while_body(context, start, body)?;
        self.put_jump(low, Op::JumpBackward, Label::At(start))?;
        self.jump_here(branch, up, Op::PopJumpIfFalse);
        Ok(())
    }

    // The body of a `while` that begins at an index and ends one instruction behind the body.
    #[cycle(statement)]
    fn while_body(
        &mut self,
        context: &Surroundings,
        start: u32,
        body: &[Statement],
    ) -> Result<(), EmitFault>
        requires { depth_of context.now < 2 * length self.old.code }
        ensures { Emits result self.old self.new (inside (spec.While start) 1 (statements.block_code self.old.locals body.now) (open_context self.old.locals context.now)) }
    {
        let from = self.here();
        let end = Label::EndOf(self.depth(context));
        self.block(&Surroundings::While(start, &*context), body)?;
        self.settle_behind(from, end, 1);
        Ok(())
    }

    // E(whole); GET_ITER; x: FOR_ITER; POP_JUMP_IF_DONE z; the store; the body; JUMP_BACKWARD x (-); z: END_FOR (-); y:
    #[cycle(statement)]
    fn for_loop(
        &mut self,
        context: &Surroundings,
        line: u32,
        targets: &Targets,
        whole: &Expression,
        body: &[Statement],
    ) -> Result<(), EmitFault>
        requires { depth_of context.now ≤ 2 * length self.old.code }
        ensures { Emits result self.old self.new (statements.for_code self.old.locals line targets.now (scheme.expression_code self.old.locals whole.now) (statements.block_code self.old.locals body.now) (open_context self.old.locals context.now)) }
    {
        let spot = self.at_line(context, line);
        let up = self.above(spot, 1);
        let higher = self.above(spot, 2);
        self.ending(spot, whole, Op::GetIter, 0)?;
        let start = self.here();
        self.put_plain(up, Op::ForIter)?;
        let branch = self.here();
        self.put_plain(higher, Op::PopJumpIfDone)?;
        self.store(up, targets)?;
        self.for_body(context, start, body)?;
        let low = up.bare();
        self.put_jump(low, Op::JumpBackward, Label::At(start))?;
        self.jump_here(branch, higher, Op::PopJumpIfDone);
        self.put_plain(low, Op::EndFor)?;
        Ok(())
    }

    // The body of a `for` whose FOR_ITER has an index; it ends two instructions behind the body.
    #[cycle(statement)]
    fn for_body(
        &mut self,
        context: &Surroundings,
        start: u32,
        body: &[Statement],
    ) -> Result<(), EmitFault>
        requires { depth_of context.now < 2 * length self.old.code }
        ensures { Emits result self.old self.new (inside (spec.For start) 2 (statements.block_code self.old.locals body.now) (open_context self.old.locals context.now)) }
    {
        let from = self.here();
        let end = Label::EndOf(self.depth(context));
        self.block(&Surroundings::For(start, &*context), body)?;
        self.settle_behind(from, end, 2);
        Ok(())
    }

    // No statement behind `else` says that there is no `else`.
    #[cycle(statement)]
    fn branch(
        &mut self,
        context: &Surroundings,
        line: u32,
        test: &Expression,
        body: &[Statement],
        other: &[Statement],
    ) -> Result<(), EmitFault>
        requires { depth_of context.now ≤ 2 * length self.old.code }
        ensures { Emits result self.old self.new (statements.branch_code line (scheme.expression_code self.old.locals test.now) (statements.block_code self.old.locals body.now) (map (statements.statement_code self.old.locals) other.now) (open_context self.old.locals context.now)) }
    {
        if other.is_empty() {
            self.if_alone(context, line, test, body)
        } else {
            self.if_else(context, line, test, body, other)
        }
    }

    // E(test); POP_JUMP_IF_FALSE x; the body; x:
    #[cycle(statement)]
    fn if_alone(
        &mut self,
        context: &Surroundings,
        line: u32,
        test: &Expression,
        body: &[Statement],
    ) -> Result<(), EmitFault>
        requires { depth_of context.now ≤ 2 * length self.old.code }
        ensures { Emits result self.old self.new (statements.if_code line (scheme.expression_code self.old.locals test.now) (statements.block_code self.old.locals body.now) (open_context self.old.locals context.now)) }
    {
        let spot = self.at_line(context, line);
        let up = self.above(spot, 1);
        self.expression(spot, test)?;
        let branch = self.here();
        self.put_plain(up, Op::PopJumpIfFalse)?;
        self.block(context, body)?;
        self.jump_here(branch, up, Op::PopJumpIfFalse);
        Ok(())
    }

    // E(test); POP_JUMP_IF_FALSE x; the body; JUMP_FORWARD y (-); x: the other block; y:
    #[cycle(statement)]
    fn if_else(
        &mut self,
        context: &Surroundings,
        line: u32,
        test: &Expression,
        body: &[Statement],
        other: &[Statement],
    ) -> Result<(), EmitFault>
        requires { depth_of context.now ≤ 2 * length self.old.code }
        ensures { Emits result self.old self.new (statements.if_else_code line (scheme.expression_code self.old.locals test.now) (statements.block_code self.old.locals body.now) (statements.block_code self.old.locals other.now) (open_context self.old.locals context.now)) }
    {
        let spot = self.at_line(context, line);
        let low = self.no_line(context);
        let up = self.above(spot, 1);
        self.expression(spot, test)?;
        let branch = self.here();
        self.put_plain(up, Op::PopJumpIfFalse)?;
        self.block(context, body)?;
        let jump = self.here();
        self.put_plain(low, Op::JumpForward)?;
        self.jump_here(branch, up, Op::PopJumpIfFalse);
        self.block(context, other)?;
        self.jump_here(jump, low, Op::JumpForward);
        Ok(())
    }
}
