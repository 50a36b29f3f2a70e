ghost use Rattle.std.specs.Prelude.{◌≡◌, ◌-◌, ◌<◌, ◌≤◌, ◌++◌, [], ◌∷◌, length, map, reverse, take, drop, replicate, Some, None, slice_get, slice_set, OnOk, OnErr, OnSome, IfOk, MatchOption};
ghost use Rattle.std.specs.Option.{option_copied};
ghost use Rattle.mon_frames.specs.Items.{lowest};
ghost use Rattle.mon_frames.specs.Calls.{called};

use crate::handling::Handling;
use mon_code::Code;
use mon_values::value::Value;
use std::alloc::{AllocError, Global};
use std::marker::Model;

/// The operand stack of a frame, which contracts see as the list of its values, the top first.
#[derive(Debug, Drop)]
pub struct Operands {
    pub items: Vec<Value>,
}

impl Model for Operands {
    ghost use Rattle.std.specs.Prelude.{List, reverse};
    ghost use Rattle.mon_values.specs.declared.value.Value.{Value as Item};
    ghost use Rattle.mon_values.specs.contracts.value.Value as value;
    ghost use Rattle.std.specs.Coded.{coded_list};

    ghost Value = { List Item };

    ghost coded = { coded_list value.the_row.coded };

    ghost view = { λ o. reverse o.items.items };
}

impl Operands {
    /// The empty stack.
    pub fn new(alloc: Global) -> Operands
        ensures { result ≡ [] }
    {
        Operands {
            items: Vec::new(alloc),
        }
    }

    /// The empty stack, with room for so many values.
    pub(crate) fn with_capacity(alloc: Global, count: usize) -> Result<Operands, AllocError>
        ensures { IfOk result (λ stack. stack ≡ []) }
    {
        Ok(Operands {
            items: Vec::with_capacity(alloc, count)?,
        })
    }

    /// Puts a value on top.
    pub fn push(&mut self, value: Value) -> Result<(), AllocError>
        ensures ok { OnOk result (self.new ≡ value ∷ self.old) }
        ensures err { OnErr result (self.new ≡ self.old) }
    {
        self.items.push(value)?;
        Ok(())
    }

    /// Takes the top value off, if there is one.
    pub fn pop(&mut self) -> Option<Value>
        ensures { MatchOption result ((self.old ≡ []) × (self.new ≡ [])) (λ top. self.old ≡ top ∷ self.new) }
    {
        self.items.pop()
    }

    /// How many values stand on it.
    pub fn len(&self) -> usize
        ensures { result ≡ length self.now }
    {
        self.items.as_slice().len()
    }

    /// The top value, if there is one.
    pub fn top(&self) -> Option<&Value>
        ensures { MatchOption result (self.now ≡ []) (λ top. self.now ≡ top.now ∷ drop 1 self.now) }
    {
        self.items.as_slice().last()
    }

    /// Takes the topmost values off, so many; the lowest of them comes first.
    pub fn take_top(&mut self, count: usize) -> Result<Vec<Value>, AllocError>
        requires { count ≤ length self.old }
        ensures taken { IfOk result (λ taken. taken.items ≡ reverse (take count self.old)) }
        ensures left { OnOk result (self.new ≡ drop count self.old) }
        ensures err { OnErr result (self.new ≡ self.old) }
    {
        let left = self.items.len() - count;
        let taken = self.items.split_off(left)?;
        Ok(taken)
    }

    /// Takes values off the top until no more than so many are left.
    pub fn cut(&mut self, count: usize)
        ensures { self.new ≡ lowest count self.old }
    {
        self.items.truncate(count)
    }
}

/// The locals of a frame, each bound to a value or not, which contracts see as their list.
#[derive(Debug, Drop)]
pub struct Locals {
    pub items: Vec<Option<Value>>,
}

impl Model for Locals {
    ghost use Rattle.std.specs.Prelude.{List, Option};
    ghost use Rattle.mon_values.specs.declared.value.Value.{Value as Item};
    ghost use Rattle.mon_values.specs.contracts.value.Value as value;
    ghost use Rattle.std.specs.Coded.{coded_list, coded_option};

    ghost Value = { List (Option Item) };

    ghost coded = { coded_list (coded_option value.the_row.coded) };

    ghost view = { λ o. o.items.items };
}

impl Locals {
    /// No locals.
    pub fn new(alloc: Global) -> Locals
        ensures { result ≡ [] }
    {
        Locals {
            items: Vec::new(alloc),
        }
    }

    /// No locals, with room for so many.
    pub(crate) fn with_capacity(alloc: Global, count: usize) -> Result<Locals, AllocError>
        ensures { IfOk result (λ locals. locals ≡ []) }
    {
        Ok(Locals {
            items: Vec::with_capacity(alloc, count)?,
        })
    }

    /// One more local, behind the others.
    pub fn push(&mut self, local: Option<Value>) -> Result<(), AllocError>
        ensures ok { OnOk result (self.new ≡ self.old ++ local ∷ []) }
        ensures err { OnErr result (self.new ≡ self.old) }
    {
        self.items.push(local)?;
        Ok(())
    }

    /// How many locals there are.
    pub fn len(&self) -> usize
        ensures { result ≡ length self.now }
    {
        self.items.len()
    }

    /// The local of this number, if there is one.
    pub fn get(&self, at: usize) -> Option<&Option<Value>>
        ensures value { option_copied result ≡ slice_get self.now at }
        ensures within { OnSome result (at < length self.now) }
    {
        self.items.get(at)
    }

    /// Binds a local, or makes it unbound.
    pub fn set(&mut self, at: usize, value: Option<Value>)
        requires { at < length self.old }
        ensures { self.new ≡ slice_set self.old at value }
    {
        self.items[at] = value;
    }
}

/// A frame: a code, the index of its next instruction, and what it works on.
#[derive(Debug, Drop)]
pub struct Frame {
    /// The number of the code in the program.
    pub code: u16,
    /// The index in the code; the offset is twice the index.
    pub index: u32,
    pub locals: Locals,
    pub stack: Operands,
    pub handling: Handling,
    /// The line of the last executed instruction that has one.
    pub line: Option<u32>,
}

impl Frame {
    /// The frame of a call of a code, which has this number in its program: the arguments become the parameters, and the
    /// other locals are not bound.
    pub fn called(
        alloc: Global,
        code: &Code,
        number: u16,
        args: Vec<Value>,
    ) -> Result<Frame, AllocError>
        ensures { IfOk result (λ frame. frame ≡ called code.now number args.items) }
    {
        let locals = locals_of(alloc, code.locals.len(), args)?;
        let stack = Operands::with_capacity(alloc, 8)?;
        Ok(Frame {
            code: number,
            index: 0,
            locals,
            stack,
            handling: Handling::new(alloc),
            line: None,
        })
    }
}

// The locals of a call: the arguments, and the others unbound.
fn locals_of(alloc: Global, count: usize, args: Vec<Value>) -> Result<Locals, AllocError>
    ensures { IfOk result (λ locals. locals ≡ map Some args.items ++ replicate (count - length args.items) None) }
{
    let unbound = count.saturating_sub(args.len());
    let mut locals = Locals::with_capacity(alloc, count)?;
    push_bound(&mut locals, args)?;
    push_unbound(&mut locals, unbound)?;
    Ok(locals)
}

fn push_bound(locals: &mut Locals, args: Vec<Value>) -> Result<(), AllocError>
    ensures { OnOk result (locals.new ≡ locals.old ++ map Some args.items) }
{
    for arg in args {
        locals.push(Some(arg))?;
    }
    Ok(())
}

fn push_unbound(locals: &mut Locals, count: usize) -> Result<(), AllocError>
    ensures { OnOk result (locals.new ≡ locals.old ++ replicate count None) }
{
    for _k in 0..count {
        locals.push(None)?;
    }
    Ok(())
}
