//! The code that leaves the entries round a statement.

ghost use Rattle.std.specs.Prelude.{◌≡◌, ◌*◌, ◌≤◌, length};
ghost use Rattle.mon_events.specs.declared.op.Op.{Op};
ghost use Rattle.mon_compile.specs.declared.assembly.Argument.TheVariants.{Destination};
ghost use Rattle.mon_compile.specs.declared.assembly.Label.TheVariants.{At, EndOf};
ghost use Rattle.mon_compile.specs.Contexts as spec;
ghost use Rattle.mon_compile.specs.Emission.{Emits, one};
ghost use Rattle.mon_compile.specs.Open.{open_context, depth_of, clause_entry};
ghost use Rattle.mon_compile.specs.Statements as scheme;

use crate::assembly::Label;
use crate::emitter::{EmitFault, Emitter};
use crate::surroundings::Surroundings;
use mon_events::Op;

impl Emitter<'_> {
    /// Leaves all entries, under a returned value.
    #[cycle(statement)]
    pub fn leave_all(&mut self, context: &Surroundings) -> Result<(), EmitFault>
        requires { depth_of context.now ≤ 2 * length self.old.code }
        ensures { Emits result self.old self.new (scheme.leave_all (open_context self.old.locals context.now)) }
    {
        match context {
            Surroundings::Top => Ok(()),
            Surroundings::While(_, outer) => self.leave_all(outer),
            Surroundings::For(_, outer) => {
                self.drop_under(outer)?;
                self.leave_all(outer)
            }
            Surroundings::Try(outer) => self.leave_all(outer),
            Surroundings::Except(outer) => {
                self.finish_clause(None, outer)?;
                self.leave_all(outer)
            }
            Surroundings::ExceptAs(local, outer) => {
                self.finish_clause(Some(*local), outer)?;
                self.leave_all(outer)
            }
            Surroundings::Finally(last, outer) => {
                self.block(&Surroundings::Returning(&**outer), last)?;
                self.leave_all(outer)
            }
            Surroundings::Raised(outer) => {
                self.finish_raised(outer)?;
                self.leave_all(outer)
            }
            Surroundings::Returning(outer) => {
                self.drop_under(outer)?;
                self.leave_all(outer)
            }
        }
    }

    // Takes a value from under a returned one.
    fn drop_under(&mut self, outer: &Surroundings) -> Result<(), EmitFault>
        requires { depth_of outer.now ≤ 2 * length self.old.code }
        ensures { Emits result self.old self.new (λ at. spec.drop_under (open_context self.old.locals outer.now)) }
    {
        let spot = self.above(self.no_line(outer), 2);
        self.put_number(spot, Op::Swap, 2)?;
        self.put_plain(spot, Op::PopTop)
    }

    // Leaves an `except` clause under a returned value, and deletes the local of its exception, if it has one.
    fn finish_clause(&mut self, local: Option<u32>, outer: &Surroundings) -> Result<(), EmitFault>
        requires { depth_of outer.now ≤ 2 * length self.old.code }
        ensures { Emits result self.old self.new (spec.left_by_return (clause_entry local (At 0)) (open_context self.old.locals outer.now)) }
    {
        let left = self.above(self.no_line(outer), 1);
        self.put_plain(self.beside(left), Op::PopExcept)?;
        match local {
            Some(local) => self.put_number(left, Op::DeleteFast, local),
            None => Ok(()),
        }
    }

    // Leaves a last part that an exception began, under a returned value.
    fn finish_raised(&mut self, outer: &Surroundings) -> Result<(), EmitFault>
        requires { depth_of outer.now ≤ 2 * length self.old.code }
        ensures { Emits result self.old self.new (spec.left_by_return spec.Raised (open_context self.old.locals outer.now)) }
    {
        let spot = self.above(self.beside(self.no_line(outer)), 2);
        self.put_plain(spot, Op::PopExcept)?;
        self.drop_under(outer)
    }

    // Leaves an `except` clause for a jump, and deletes the local of its exception, if it has one.
    fn leave_clause(&mut self, local: Option<u32>, outer: &Surroundings) -> Result<(), EmitFault>
        requires { depth_of outer.now ≤ 2 * length self.old.code }
        ensures { Emits result self.old self.new (spec.left_by_break (clause_entry local (At 0)) (open_context self.old.locals outer.now)) }
    {
        let outside = self.no_line(outer);
        self.put_plain(self.beside(outside), Op::PopExcept)?;
        match local {
            Some(local) => self.put_number(outside, Op::DeleteFast, local),
            None => Ok(()),
        }
    }

    // Leaves a last part that an exception began, for a jump.
    fn leave_raised(&mut self, outer: &Surroundings) -> Result<(), EmitFault>
        requires { depth_of outer.now ≤ 2 * length self.old.code }
        ensures { Emits result self.old self.new (spec.left_by_break spec.Raised (open_context self.old.locals outer.now)) }
    {
        let spot = self.above(self.beside(self.no_line(outer)), 1);
        self.put_plain(spot, Op::PopExcept)?;
        self.drop_value(outer)
    }

    // Takes a value, for a jump.
    fn drop_value(&mut self, outer: &Surroundings) -> Result<(), EmitFault>
        requires { depth_of outer.now ≤ 2 * length self.old.code }
        ensures { Emits result self.old self.new (one (spec.put (spec.above 1 (spec.no_line (open_context self.old.locals outer.now))) Op.PopTop spec.none)) }
    {
        let spot = self.above(self.no_line(outer), 1);
        self.put_plain(spot, Op::PopTop)
    }

    // Leaves the entries up to and with that of the innermost loop, and jumps to its end.
    #[cycle(statement)]
    fn leave_loop(&mut self, context: &Surroundings, line: u32) -> Result<(), EmitFault>
        requires { depth_of context.now ≤ 2 * length self.old.code }
        ensures { Emits result self.old self.new (scheme.leave_loop line (open_context self.old.locals context.now)) }
    {
        match context {
            Surroundings::Top => Ok(()),
            Surroundings::While(_, outer) => self.jump_to_end(outer, line),
            Surroundings::For(_, outer) => {
                self.drop_value(outer)?;
                self.jump_to_end(outer, line)
            }
            Surroundings::Try(outer) => self.leave_loop(outer, line),
            Surroundings::Except(outer) => {
                self.leave_clause(None, outer)?;
                self.leave_loop(outer, line)
            }
            Surroundings::ExceptAs(local, outer) => {
                self.leave_clause(Some(*local), outer)?;
                self.leave_loop(outer, line)
            }
            Surroundings::Finally(last, outer) => {
                self.block(outer, last)?;
                self.leave_loop(outer, line)
            }
            Surroundings::Raised(outer) => {
                self.leave_raised(outer)?;
                self.leave_loop(outer, line)
            }
            Surroundings::Returning(outer) => {
                self.drop_value(outer)?;
                self.leave_loop(outer, line)
            }
        }
    }

    // Jumps to the end of the loop inside these entries.
    fn jump_to_end(&mut self, outer: &Surroundings, line: u32) -> Result<(), EmitFault>
        requires { depth_of outer.now ≤ 2 * length self.old.code }
        ensures { Emits result self.old self.new (one (spec.put (spec.at_line line (open_context self.old.locals outer.now)) Op.JumpForward (Destination (EndOf (length (open_context self.old.locals outer.now)))))) }
    {
        let end = Label::EndOf(self.depth(outer));
        self.put_jump(self.at_line(outer, line), Op::JumpForward, end)
    }

    // Leaves the entries inside that of the innermost loop, and jumps back to its start.
    #[cycle(statement)]
    fn next_turn(&mut self, context: &Surroundings, line: u32) -> Result<(), EmitFault>
        requires { depth_of context.now ≤ 2 * length self.old.code }
        ensures { Emits result self.old self.new (scheme.next_turn line (open_context self.old.locals context.now)) }
    {
        match context {
            Surroundings::Top => Ok(()),
            Surroundings::While(start, _) | Surroundings::For(start, _) => {
                let spot = self.at_line(context, line);
                self.put_jump(spot, Op::JumpBackward, Label::At(*start))
            }
            Surroundings::Try(outer) => self.next_turn(outer, line),
            Surroundings::Except(outer) => {
                self.leave_clause(None, outer)?;
                self.next_turn(outer, line)
            }
            Surroundings::ExceptAs(local, outer) => {
                self.leave_clause(Some(*local), outer)?;
                self.next_turn(outer, line)
            }
            Surroundings::Finally(last, outer) => {
                self.block(outer, last)?;
                self.next_turn(outer, line)
            }
            Surroundings::Raised(outer) => {
                self.leave_raised(outer)?;
                self.next_turn(outer, line)
            }
            Surroundings::Returning(outer) => {
                self.drop_value(outer)?;
                self.next_turn(outer, line)
            }
        }
    }

    /// `break`, which outside a loop has no code.
    #[cycle(statement)]
    pub fn break_loop(&mut self, context: &Surroundings, line: u32) -> Result<(), EmitFault>
        requires { depth_of context.now ≤ 2 * length self.old.code }
        ensures { Emits result self.old self.new (scheme.break_code line (open_context self.old.locals context.now)) }
    {
        if self.in_loop(context) {
            self.leave_loop(context, line)
        } else {
            Ok(())
        }
    }

    /// `continue`, which outside a loop has no code.
    #[cycle(statement)]
    pub fn continue_loop(&mut self, context: &Surroundings, line: u32) -> Result<(), EmitFault>
        requires { depth_of context.now ≤ 2 * length self.old.code }
        ensures { Emits result self.old self.new (scheme.continue_code line (open_context self.old.locals context.now)) }
    {
        if self.in_loop(context) {
            self.next_turn(context, line)
        } else {
            Ok(())
        }
    }
}
