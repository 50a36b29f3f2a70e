//! What stands round a statement while its code is made.

ghost use Rattle.std.specs.Prelude.{◌≡◌, ◌*◌, ◌+◌, ◌^◌, ◌<◌, ◌≤◌, length};
ghost use Rattle.std.specs.declared.option.Option.TheVariants.{Some};
ghost use Rattle.mon_compile.specs.declared.assembly.Label.TheVariants.{HandlerOf};
ghost use Rattle.mon_compile.specs.Contexts as spec;
ghost use Rattle.mon_compile.specs.Faults.{most_locations};
ghost use Rattle.mon_compile.specs.Open.{open_context, depth_of};

use crate::assembly::{Handler, Label, Spot};
use crate::emitter::Emitter;
use mon_trees::tree::Statement;

/// The entries round a statement, the innermost first. A loop has the index of its start, a named handler the number of
/// its local, a `finally` its last part.
#[derive(Clone, Copy)]
pub enum Surroundings<'a> {
    Top,
    While(u32, &'a Surroundings<'a>),
    For(u32, &'a Surroundings<'a>),
    Try(&'a Surroundings<'a>),
    Except(&'a Surroundings<'a>),
    ExceptAs(u32, &'a Surroundings<'a>),
    Finally(&'a [Statement], &'a Surroundings<'a>),
    /// A last part that runs after an exception.
    Raised(&'a Surroundings<'a>),
    /// A last part that runs under a returned value.
    Returning(&'a Surroundings<'a>),
}

impl Spot {
    /// The same spot above n more values.
    pub fn above(self, n: u32) -> Spot
        requires { n + self.stack < 2 ^ 32 }
        ensures { result ≡ spec.above n self }
    {
        Spot {
            stack: n + self.stack,
            ..self
        }
    }

    /// The same spot beside n more exceptions.
    pub fn beside(self, n: u32) -> Spot
        requires { n + self.handling < 2 ^ 32 }
        ensures { result ≡ spec.beside n self }
    {
        Spot {
            handling: n + self.handling,
            ..self
        }
    }

    /// The same spot without a line.
    pub fn bare(self) -> Spot
        ensures { result ≡ spec.bare self }
    {
        Spot { line: None, ..self }
    }
}

impl Surroundings<'_> {
    /// How many entries there are.
    pub fn depth(&self) -> u32
        requires { depth_of self.now ≤ 2 * most_locations }
        ensures { result ≡ depth_of self.now }
    {
        match self {
            Surroundings::Top => 0,
            Surroundings::While(_, outer) => 1 + outer.depth(),
            Surroundings::For(_, outer) => 1 + outer.depth(),
            Surroundings::Try(outer) => 1 + outer.depth(),
            Surroundings::Except(outer) => 1 + outer.depth(),
            Surroundings::ExceptAs(_, outer) => 1 + outer.depth(),
            Surroundings::Finally(_, outer) => 1 + outer.depth(),
            Surroundings::Raised(outer) => 1 + outer.depth(),
            Surroundings::Returning(outer) => 1 + outer.depth(),
        }
    }
}

impl Emitter<'_> {
    /// Whether a loop is open.
    pub fn in_loop(&self, context: &Surroundings) -> bool
        ensures { result ≡ spec.in_loop (open_context self.now.locals context.now) }
    {
        match context {
            Surroundings::Top => false,
            Surroundings::While(_, _) => true,
            Surroundings::For(_, _) => true,
            Surroundings::Try(outer) => self.in_loop(outer),
            Surroundings::Except(outer) => self.in_loop(outer),
            Surroundings::ExceptAs(_, outer) => self.in_loop(outer),
            Surroundings::Finally(_, outer) => self.in_loop(outer),
            Surroundings::Raised(outer) => self.in_loop(outer),
            Surroundings::Returning(outer) => self.in_loop(outer),
        }
    }

    // The spot of an instruction inside an entry with a handler, from the spot outside.
    fn caught(&self, spot: Spot, outer: &Surroundings) -> Spot
        requires { depth_of outer.now ≤ 2 * length self.now.code }
        ensures { result ≡ record spot { handler = Some (record { to = HandlerOf (length (open_context self.now.locals outer.now)); stack = spot.stack; handling = spot.handling }) } }
    {
        let handler = Some(Handler {
            to: Label::HandlerOf(self.depth(outer)),
            stack: spot.stack,
            handling: spot.handling,
        });
        Spot { handler, ..spot }
    }

    /// The spot of an instruction without a line, at the depths of these entries, each of which holds at most one value
    /// and one exception.
    pub fn no_line(&self, context: &Surroundings) -> Spot
        requires { depth_of context.now ≤ 2 * length self.now.code }
        ensures spot { result ≡ spec.no_line (open_context self.now.locals context.now) }
        ensures stack { result.stack ≤ depth_of context.now }
        ensures handling { result.handling ≤ depth_of context.now }
    {
        match context {
            Surroundings::Top => Spot {
                line: None,
                handler: None,
                stack: 0,
                handling: 0,
            },
            Surroundings::While(_, outer) => self.no_line(outer),
            Surroundings::For(_, outer) => self.above(self.no_line(outer), 1),
            Surroundings::Try(outer) => self.caught(self.no_line(outer), outer),
            Surroundings::Except(outer) => self.beside(self.no_line(outer)),
            Surroundings::ExceptAs(_, outer) => self.beside(self.caught(
                self.no_line(outer),
                outer,
            )),
            Surroundings::Finally(_, outer) => self.caught(self.no_line(outer), outer),
            Surroundings::Raised(outer) => self.above(self.beside(self.no_line(outer)), 1),
            Surroundings::Returning(outer) => self.above(self.no_line(outer), 1),
        }
    }

    /// The same at a line.
    pub fn at_line(&self, context: &Surroundings, line: u32) -> Spot
        requires { depth_of context.now ≤ 2 * length self.now.code }
        ensures spot { result ≡ spec.at_line line (open_context self.now.locals context.now) }
        ensures stack { result.stack ≤ depth_of context.now }
        ensures handling { result.handling ≤ depth_of context.now }
    {
        let spot = self.no_line(context);
        Spot {
            line: Some(line),
            ..spot
        }
    }
}
