//! The code of a function while it is made.

ghost use Rattle.std.specs.Prelude.{◌≡◌, ◌*◌, ◌+◌, ◌≤◌, ◌<◌, [], length, slice_set, OnOk};
ghost use Rattle.mon_values.specs.declared.value.Value as values;
ghost use Rattle.mon_compile.specs.declared.emitter.EmitFault.TheVariants.{Memory};
ghost use Rattle.mon_compile.specs.declared.assembly.Argument.TheVariants.{Number, Destination};
ghost use Rattle.mon_compile.specs.declared.assembly.Label.TheVariants.{At};
ghost use Rattle.mon_compile.specs.Contexts as spec;
ghost use Rattle.mon_compile.specs.Emission.{Counts, Emits, emitted, one};
ghost use Rattle.mon_compile.specs.Expressions as scheme;
ghost use Rattle.mon_compile.specs.Faults.{most_locals, most_locations};
ghost use Rattle.mon_compile.specs.Open as opened;
ghost use Rattle.mon_compile.specs.Open.{open_context, depth_of};

use crate::assembly::{Argument, Instruction, Label, Spot};
use crate::codes::text;
use crate::scope::{copy, is_local, number_of_local};
use crate::settle::settle;
use crate::surroundings::Surroundings;
use mon_events::Op;
use mon_shared::SharedItems;
use mon_trees::Text;
use mon_values::value::Value;
use sqlite_items::Items;
use std::alloc::{AllocError, Global};
use std::marker::Model;
use thiserror::Error;

/// Why a part of a function has no code.
#[derive(Clone, Copy, Debug, Drop, PartialEq, Eq, Error)]
pub enum EmitFault {
    /// With it the code would be longer than it may be.
    #[error("TooManyLocations")]
    TooManyLocations,
    /// Memory ran out.
    #[error("Memory")]
    Memory,
}

impl From<AllocError> for EmitFault {
    ghost from_gives = { λ _ e. e ≡ Memory };

    fn from(_: AllocError) -> EmitFault {
        EmitFault::Memory
    }
}

/// The code of a function while it is made, with the names of the function's locals, and how many instructions it may
/// have.
///
/// The methods that add code add all of it, or answer why not; the code is then of no use.
#[derive(Debug, Drop)]
pub struct Emitter<'a> {
    alloc: Global,
    locals: &'a [Text],
    limit: usize,
    code: Vec<Instruction>,
}

impl<'a> Model for Emitter<'a> {
    ghost use Rattle.mon_compile.specs.Emission.{Emission};
    ghost use Rattle.mon_compile.specs.declared.assembly.Instruction.{Instruction as Made};
    ghost use Rattle.mon_compile.specs.contracts.assembly.Instruction as instruction;
    ghost use Rattle.mon_compile.specs.Faults.{most_locals, most_locations};
    ghost use Rattle.std.specs.Prelude.{ℕ, ◌≤◌, List, length, refl};
    ghost use Rattle.std.specs.Coded.{code_by, coded×, coded_list, coded_ℕ};

    ghost Value = { Emission };

    ghost coded = { code_by (List (List ℕ) × (ℕ × List Made)) (coded× (coded_list (coded_list coded_ℕ)) (coded× coded_ℕ (coded_list instruction.the_row.coded))) (λ e. (e.locals, (e.limit, e.code))) (λ p. record { locals = p.0; limit = p.1.0; code = p.1.1 }) (λ _. refl) };

    ghost view = { λ e. record { locals = e.locals.now; limit = e.limit; code = e.code.items } };

    ghost invariant = { λ e. (length e.code.items ≤ e.limit) × ((e.limit ≤ most_locations) × (length e.locals.now ≤ most_locals)) };
}

impl<'a> Emitter<'a> {
    /// No code yet, and at most so many instructions.
    pub fn new(alloc: Global, locals: &'a [Text], limit: usize) -> Self
        requires locals { length locals.now ≤ most_locals }
        requires limit { limit ≤ most_locations }
        ensures { result ≡ record { locals = locals.now; limit = limit; code = [] } }
    {
        Emitter {
            alloc,
            locals,
            limit,
            code: Vec::new(alloc),
        }
    }

    /// The code.
    pub fn into_code(self) -> Vec<Instruction>
        ensures code { result.items ≡ self.entry.code }
        ensures few { length result.items ≤ self.entry.limit }
    {
        self.code
    }
}

impl Emitter<'_> {
    /// The index of the next instruction.
    pub fn here(&self) -> u32
        ensures { result ≡ length self.now.code }
    {
        prove!(self.code.len() <= self.limit);
        self.code.len() as u32
    }

    /// The number of a local.
    pub fn local(&self, name: &Text) -> u32
        ensures { result ≡ scheme.number_of_local self.now.locals name.now }
    {
        number_of_local(self.locals, name) as u32
    }

    /// How many values the code has pushed, beside one at most: no more than it has instructions.
    pub fn count(&self, values: usize) -> u32
        requires { values ≤ length self.now.code + 1 }
        ensures count { result ≡ values }
        ensures few { result ≤ most_locations + 1 }
    {
        prove!(self.code.len() <= self.limit);
        values as u32
    }

    /// A count of instructions that are to come, or that they are too many.
    pub fn room_for(&self, count: usize) -> Result<u32, EmitFault>
        ensures { Counts result self.now.limit count }
    {
        if count > self.limit {
            return Err(EmitFault::TooManyLocations);
        }
        Ok(count as u32)
    }

    /// How many entries there are, of which each has an instruction before it.
    pub fn depth(&self, context: &Surroundings) -> u32
        requires { depth_of context.now ≤ 2 * length self.now.code }
        ensures { result ≡ length (open_context self.now.locals context.now) }
    {
        prove!(self.code.len() <= self.limit);
        context.depth()
    }

    /// The spot above n more values.
    pub fn above(&self, spot: Spot, n: u32) -> Spot
        requires spot { spot.stack ≤ 2 * length self.now.code }
        requires few { n ≤ most_locations + 1 }
        ensures spot { result ≡ spec.above n spot }
        ensures few { spot.stack ≤ 2 * most_locations }
    {
        prove!(self.code.len() <= self.limit);
        spot.above(n)
    }

    /// The spot beside one more exception.
    pub fn beside(&self, spot: Spot) -> Spot
        requires { spot.handling ≤ 2 * length self.now.code }
        ensures { result ≡ spec.beside 1 spot }
    {
        prove!(self.code.len() <= self.limit);
        spot.beside(1)
    }

    /// One more instruction.
    pub fn put(&mut self, spot: Spot, op: Op, argument: Argument) -> Result<(), EmitFault>
        ensures { Emits result self.old self.new (one (spec.put spot op argument)) }
    {
        if self.code.len() >= self.limit {
            return Err(EmitFault::TooManyLocations);
        }
        self.push(Instruction { op, argument, spot })?;
        Ok(())
    }

    fn push(&mut self, instruction: Instruction) -> Result<(), AllocError>
        requires { length self.old.code < self.old.limit }
        ensures { OnOk result (self.new ≡ emitted self.old (one instruction)) }
    {
        self.code.push(instruction)?;
        Ok(())
    }

    /// One more instruction without an argument.
    pub fn put_plain(&mut self, spot: Spot, op: Op) -> Result<(), EmitFault>
        ensures { Emits result self.old self.new (one (spec.put spot op spec.none)) }
    {
        self.put(spot, op, Argument::Number(0))
    }

    /// One more instruction with a number.
    pub fn put_number(&mut self, spot: Spot, op: Op, number: u32) -> Result<(), EmitFault>
        ensures { Emits result self.old self.new (one (spec.put spot op (Number number))) }
    {
        self.put(spot, op, Argument::Number(number))
    }

    /// One more jump.
    pub fn put_jump(&mut self, spot: Spot, op: Op, to: Label) -> Result<(), EmitFault>
        ensures { Emits result self.old self.new (one (spec.put spot op (Destination to))) }
    {
        self.put(spot, op, Argument::Destination(to))
    }

    /// `LOAD_CONST`.
    pub fn put_constant(&mut self, spot: Spot, value: Value) -> Result<(), EmitFault>
        ensures { Emits result self.old self.new (scheme.constant_code value spot) }
    {
        self.put(spot, Op::LoadConst, Argument::Constant(value))
    }

    /// `LOAD_CONST` with a text.
    pub fn put_text(&mut self, spot: Spot, characters: &Text) -> Result<(), EmitFault>
        ensures { Emits result self.old self.new (scheme.constant_code (values.Text characters.now) spot) }
    {
        let value = Value::Text(text(self.alloc, characters)?);
        self.put_constant(spot, value)
    }

    /// `LOAD_CONST` with the empty tuple.
    pub fn put_empty(&mut self, spot: Spot) -> Result<(), EmitFault>
        ensures { Emits result self.old self.new (scheme.constant_code (values.Tuple []) spot) }
    {
        let value = Value::Tuple(SharedItems::new());
        self.put_constant(spot, value)
    }

    /// `LOAD_FAST` for a local, and `LOAD_GLOBAL` for another name.
    pub fn put_name(&mut self, spot: Spot, name: &Text) -> Result<(), EmitFault>
        ensures { Emits result self.old self.new (scheme.name_code self.old.locals name.now spot) }
    {
        if is_local(self.locals, name) {
            let number = self.local(name);
            self.put_number(spot, Op::LoadFast, number)
        } else {
            let name = copy(self.alloc, name)?;
            self.put(spot, Op::LoadGlobal, Argument::Name(name))
        }
    }

    /// What stands at an index becomes a jump to another.
    pub fn set_jump(&mut self, at: u32, spot: Spot, op: Op, to: u32)
        requires { at < length self.old.code }
        ensures { self.new ≡ record self.old { code = slice_set self.old.code at (spec.put spot op (Destination (At to))) } }
    {
        self.code[at as usize] = Instruction {
            op,
            argument: Argument::Destination(Label::At(to)),
            spot,
        };
    }

    /// What stands at an index becomes a jump to the end of the code.
    pub fn jump_here(&mut self, at: u32, spot: Spot, op: Op)
        requires { at < length self.old.code }
        ensures { self.new ≡ record self.old { code = slice_set self.old.code at (spec.put spot op (Destination (At (length self.old.code)))) } }
    {
        let end = self.here();
        self.set_jump(at, spot, op, end);
    }

    /// From an index on, an open label becomes the index so many instructions behind the end of the code.
    #[tactic(auto, using(crate::proofs::Settled::changed_length))]
    pub fn settle_behind(&mut self, from: u32, unknown: Label, behind: u32)
        requires from { from ≤ length self.old.code }
        requires near { behind ≤ 3 }
        ensures { self.new ≡ record self.old { code = opened.changed_from (opened.settled unknown (length self.old.code + behind)) from self.old.code } }
    {
        let done = self.here() + behind;
        settle(&mut self.code, from as usize, unknown, done);
    }
}
