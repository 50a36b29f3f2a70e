//! The code of `try` and its clauses.

ghost use Rattle.std.specs.Prelude.{◌≡◌, ◌+◌, ◌*◌, ◌<◌, ◌≤◌, length, map};
ghost use Rattle.mon_compile.specs.Contexts as spec;
ghost use Rattle.mon_compile.specs.Emission.{Emits};
ghost use Rattle.mon_compile.specs.Expressions as scheme;
ghost use Rattle.mon_compile.specs.Open.{open_context, depth_of, inside, ending, covered};
ghost use Rattle.mon_compile.specs.Statements as statements;

use crate::assembly::{Label, Spot};
use crate::emitter::{EmitFault, Emitter};
use crate::surroundings::Surroundings;
use mon_events::Op;
use mon_trees::tree::{Expression, Handler, Statement};

impl Emitter<'_> {
    // The spot of a clause: the exception is on the stack and on the handling list.
    fn in_clause(&self, spot: Spot) -> Spot
        requires stack { spot.stack < 2 * length self.now.code }
        requires handling { spot.handling < 2 * length self.now.code }
        ensures spot { result ≡ statements.in_clause spot }
        ensures stack { result.stack ≤ 2 * length self.now.code }
    {
        let beside = self.beside(spot);
        self.above(beside, 1)
    }

    /// NOP, and then the parts of a `try`.
    #[cycle(statement)]
    pub fn try_statement(
        &mut self,
        context: &Surroundings,
        line: u32,
        body: &[Statement],
        clauses: &[Handler],
        last: &[Statement],
    ) -> Result<(), EmitFault>
        requires { depth_of context.now ≤ 2 * length self.old.code }
        ensures { Emits result self.old self.new (statements.try_code line (statements.block_code self.old.locals body.now) (map (statements.handler_code self.old.locals) clauses.now) (map (statements.statement_code self.old.locals) last.now) (open_context self.old.locals context.now)) }
    {
        let spot = self.at_line(context, line);
        self.put_plain(spot, Op::Nop)?;
        if last.is_empty() {
            self.handlers(context, body, clauses)
        } else {
            self.finally(context, body, clauses, last)
        }
    }

    // The body and the last part; JUMP_FORWARD y (-); h: PUSH_EXC_INFO (-); the last part; RERAISE (-); y:
    #[cycle(statement)]
    fn finally(
        &mut self,
        context: &Surroundings,
        body: &[Statement],
        clauses: &[Handler],
        last: &[Statement],
    ) -> Result<(), EmitFault>
        requires { 1 + depth_of context.now < 2 * length self.old.code }
        ensures { Emits result self.old self.new (statements.finally_code (statements.guarded (statements.block_code self.old.locals body.now) (map (statements.handler_code self.old.locals) clauses.now)) (statements.block_code self.old.locals last.now) (open_context self.old.locals context.now)) }
    {
        let low = self.no_line(context);
        let up = self.above(low, 1);
        let spot = self.in_clause(low);
        self.covered(context, body, clauses, last)?;
        let jump = self.here();
        self.put_plain(low, Op::JumpForward)?;
        self.put_plain(up, Op::PushExcInfo)?;
        self.block(&Surroundings::Raised(&*context), last)?;
        self.put_plain(spot, Op::Reraise)?;
        self.jump_here(jump, low, Op::JumpForward);
        Ok(())
    }

    // What a last part covers, whose handler stands one instruction behind the part, and the part.
    #[cycle(statement)]
    fn covered(
        &mut self,
        context: &Surroundings,
        body: &[Statement],
        clauses: &[Handler],
        last: &[Statement],
    ) -> Result<(), EmitFault>
        requires { 1 + depth_of context.now < 2 * length self.old.code }
        ensures { Emits result self.old self.new (covered (statements.guarded (statements.block_code self.old.locals body.now) (map (statements.handler_code self.old.locals) clauses.now)) (statements.block_code self.old.locals last.now) (open_context self.old.locals context.now)) }
    {
        let from = self.here();
        let handler = Label::HandlerOf(self.depth(context));
        self.guarded(&Surroundings::Finally(&*last, &*context), body, clauses)?;
        self.block(context, last)?;
        self.settle_behind(from, handler, 1);
        Ok(())
    }

    // The body of a `try` that has a last part, with the clauses, if there are any.
    #[cycle(statement)]
    fn guarded(
        &mut self,
        context: &Surroundings,
        body: &[Statement],
        clauses: &[Handler],
    ) -> Result<(), EmitFault>
        requires { depth_of context.now < 2 * length self.old.code }
        ensures { Emits result self.old self.new (statements.guarded (statements.block_code self.old.locals body.now) (map (statements.handler_code self.old.locals) clauses.now) (open_context self.old.locals context.now)) }
    {
        if clauses.is_empty() {
            self.block(context, body)
        } else {
            self.handlers(context, body, clauses)
        }
    }

    // The body; JUMP_FORWARD y (-); h: PUSH_EXC_INFO (-); the clauses; y:
    #[cycle(statement)]
    fn handlers(
        &mut self,
        context: &Surroundings,
        body: &[Statement],
        clauses: &[Handler],
    ) -> Result<(), EmitFault>
        requires { depth_of context.now < 2 * length self.old.code }
        ensures { Emits result self.old self.new (statements.handlers_code (statements.block_code self.old.locals body.now) (map (statements.handler_code self.old.locals) clauses.now) (open_context self.old.locals context.now)) }
    {
        let low = self.no_line(context);
        let up = self.above(low, 1);
        self.try_body(context, body)?;
        let jump = self.here();
        self.put_plain(low, Op::JumpForward)?;
        self.put_plain(up, Op::PushExcInfo)?;
        self.clauses(context, clauses)?;
        self.jump_here(jump, low, Op::JumpForward);
        Ok(())
    }

    // The body of a `try`, whose handler stands one instruction behind the body.
    #[cycle(statement)]
    fn try_body(&mut self, context: &Surroundings, body: &[Statement]) -> Result<(), EmitFault>
        requires { depth_of context.now < 2 * length self.old.code }
        ensures { Emits result self.old self.new (inside spec.Try 1 (statements.block_code self.old.locals body.now) (open_context self.old.locals context.now)) }
    {
        let from = self.here();
        let handler = Label::HandlerOf(self.depth(context));
        self.block(&Surroundings::Try(&*context), body)?;
        self.settle_behind(from, handler, 1);
        Ok(())
    }

    // The clauses of a `try`, which ends behind them.
    #[cycle(statement)]
    fn clauses(&mut self, context: &Surroundings, clauses: &[Handler]) -> Result<(), EmitFault>
        requires { depth_of context.now < 2 * length self.old.code }
        ensures { Emits result self.old self.new (ending (statements.clauses_code (map (statements.handler_code self.old.locals) clauses.now)) (open_context self.old.locals context.now)) }
    {
        let from = self.here();
        let end = Label::EndOf(self.depth(context));
        self.each_clause(context, end, clauses)?;
        self.settle_behind(from, end, 0);
        Ok(())
    }

    // Each clause; RERAISE (-) unless the last clause is bare.
    #[cycle(statement)]
    fn each_clause(
        &mut self,
        context: &Surroundings,
        end: Label,
        clauses: &[Handler],
    ) -> Result<(), EmitFault>
        requires { depth_of context.now < 2 * length self.old.code }
        ensures { Emits result self.old self.new (statements.clauses_code (map (statements.handler_code self.old.locals) clauses.now) end (open_context self.old.locals context.now)) }
    {
        let low = self.no_line(context);
        let spot = self.in_clause(low);
        for clause in clauses {
            self.clause(context, end, clause)?;
            if clause.class.is_none() {
                return Ok(());
            }
        }
        self.put_plain(spot, Op::Reraise)
    }

    // The code of a clause whose statement has an end.
    #[cycle(statement)]
    fn clause(
        &mut self,
        context: &Surroundings,
        end: Label,
        clause: &Handler,
    ) -> Result<(), EmitFault>
        requires { depth_of context.now < 2 * length self.old.code }
        ensures { Emits result self.old self.new ((statements.handler_code self.old.locals clause.now).code end (open_context self.old.locals context.now)) }
    {
        let body = clause.body.as_slice();
        match (&clause.class, &clause.name) {
            (None, _) => self.except_bare(context, clause.line, end, body),
            (Some(class), None) => self.except(context, clause.line, end, class, body),
            (Some(class), Some(name)) => {
                let local = self.local(name);
                self.except_as(context, clause.line, end, class, local, body)
            }
        }
    }

    // POP_TOP; the body
    #[cycle(statement)]
    fn except_bare(
        &mut self,
        context: &Surroundings,
        line: u32,
        end: Label,
        body: &[Statement],
    ) -> Result<(), EmitFault>
        requires { depth_of context.now < 2 * length self.old.code }
        ensures { Emits result self.old self.new (statements.bare_code line (statements.block_code self.old.locals body.now) end (open_context self.old.locals context.now)) }
    {
        let low = self.at_line(context, line);
        let spot = self.in_clause(low);
        self.put_plain(spot, Op::PopTop)?;
        self.except_body(context, end, body)?;
        Ok(())
    }

    // E(class); CHECK_EXC_MATCH; POP_JUMP_IF_FALSE z; POP_TOP; the body; z:
    #[cycle(statement)]
    fn except(
        &mut self,
        context: &Surroundings,
        line: u32,
        end: Label,
        class: &Expression,
        body: &[Statement],
    ) -> Result<(), EmitFault>
        requires { depth_of context.now < 2 * length self.old.code }
        ensures { Emits result self.old self.new (statements.except_code line (scheme.expression_code self.old.locals class.now) (statements.block_code self.old.locals body.now) end (open_context self.old.locals context.now)) }
    {
        let low = self.at_line(context, line);
        let spot = self.in_clause(low);
        let up = self.above(spot, 1);
        self.ending(spot, class, Op::CheckExcMatch, 0)?;
        let branch = self.here();
        self.put_plain(up, Op::PopJumpIfFalse)?;
        self.put_plain(spot, Op::PopTop)?;
        self.except_body(context, end, body)?;
        self.jump_here(branch, up, Op::PopJumpIfFalse);
        Ok(())
    }

    // The body; POP_EXCEPT (-); JUMP_FORWARD to the end (-)
    #[cycle(statement)]
    fn except_body(
        &mut self,
        context: &Surroundings,
        end: Label,
        body: &[Statement],
    ) -> Result<(), EmitFault>
        requires { depth_of context.now < 2 * length self.old.code }
        ensures { Emits result self.old self.new (statements.except_body (statements.block_code self.old.locals body.now) end (open_context self.old.locals context.now)) }
    {
        let low = self.no_line(context);
        let handling = self.beside(low);
        self.block(&Surroundings::Except(&*context), body)?;
        self.put_plain(handling, Op::PopExcept)?;
        self.put_jump(low, Op::JumpForward, end)
    }

    // E(class); CHECK_EXC_MATCH; POP_JUMP_IF_FALSE z; STORE_FAST n; the body; z:
    #[cycle(statement)]
    fn except_as(
        &mut self,
        context: &Surroundings,
        line: u32,
        end: Label,
        class: &Expression,
        local: u32,
        body: &[Statement],
    ) -> Result<(), EmitFault>
        requires { depth_of context.now < 2 * length self.old.code }
        ensures { Emits result self.old self.new (statements.except_as_code line (scheme.expression_code self.old.locals class.now) local (statements.block_code self.old.locals body.now) end (open_context self.old.locals context.now)) }
    {
        let low = self.at_line(context, line);
        let spot = self.in_clause(low);
        let up = self.above(spot, 1);
        self.ending(spot, class, Op::CheckExcMatch, 0)?;
        let branch = self.here();
        self.put_plain(up, Op::PopJumpIfFalse)?;
        self.put_number(spot, Op::StoreFast, local)?;
        self.except_as_body(context, end, local, body)?;
        self.jump_here(branch, up, Op::PopJumpIfFalse);
        Ok(())
    }

    // The body; POP_EXCEPT (-); DELETE_FAST n (-); JUMP_FORWARD to the end (-); c: PUSH_EXC_INFO (-); DELETE_FAST n (-);
    // RERAISE (-)
    #[cycle(statement)]
    fn except_as_body(
        &mut self,
        context: &Surroundings,
        end: Label,
        local: u32,
        body: &[Statement],
    ) -> Result<(), EmitFault>
        requires { depth_of context.now < 2 * length self.old.code }
        ensures { Emits result self.old self.new (statements.except_as_body local (statements.block_code self.old.locals body.now) end (open_context self.old.locals context.now)) }
    {
        let low = self.no_line(context);
        let handling = self.beside(low);
        let up = self.above(low, 1);
        let spot = self.in_clause(low);
        self.named_body(context, local, body)?;
        self.put_plain(handling, Op::PopExcept)?;
        self.put_number(low, Op::DeleteFast, local)?;
        self.put_jump(low, Op::JumpForward, end)?;
        self.put_plain(up, Op::PushExcInfo)?;
        self.put_number(spot, Op::DeleteFast, local)?;
        self.put_plain(spot, Op::Reraise)?;
        Ok(())
    }

    // The body of a clause with a name, whose handler stands three instructions behind the body.
    #[cycle(statement)]
    fn named_body(
        &mut self,
        context: &Surroundings,
        local: u32,
        body: &[Statement],
    ) -> Result<(), EmitFault>
        requires { depth_of context.now < 2 * length self.old.code }
        ensures { Emits result self.old self.new (inside (spec.ExceptAs local) 3 (statements.block_code self.old.locals body.now) (open_context self.old.locals context.now)) }
    {
        let from = self.here();
        let handler = Label::HandlerOf(self.depth(context));
        self.block(&Surroundings::ExceptAs(local, &*context), body)?;
        self.settle_behind(from, handler, 3);
        Ok(())
    }
}
