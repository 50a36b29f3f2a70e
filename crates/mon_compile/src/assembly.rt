//! Instructions whose destinations may still be open.

use mon_events::Op;
use mon_trees::Text;
use mon_values::value::Value;

/// Where a jump or a handler goes: to an index, or, while that is not known, to the end or the handler of the statement
/// that opened the entry of the context inside so many others.
#[derive(Clone, Copy, Debug, PartialEq, Eq)]
pub enum Label {
    /// An index.
    At(u32),
    /// The end of the statement whose entry stands inside so many others.
    EndOf(u32),
    /// The handler of the statement whose entry stands inside so many others.
    HandlerOf(u32),
}

/// What an opcode is given.
#[derive(Debug, Drop)]
pub enum Argument {
    /// A count, an operator, or the number of a local or a builtin; 0 where the opcode takes none.
    Number(u32),
    /// A constant.
    Constant(Value),
    /// The name of a global.
    Name(Text),
    /// Where a jump goes.
    Destination(Label),
}

/// Where an exception goes, and how many values and exceptions are left then below it.
#[derive(Clone, Copy, Debug, PartialEq, Eq)]
pub struct Handler {
    /// Where the exception goes.
    pub to: Label,
    /// How many values are left on the operand stack.
    pub stack: u32,
    /// How many exceptions are left on the handling list.
    pub handling: u32,
}

/// Where an instruction stands: its line, its handler, and the depths of the operand stack and the handling list before
/// it.
#[derive(Clone, Copy, Debug, PartialEq, Eq)]
pub struct Spot {
    /// The line, if it has one.
    pub line: Option<u32>,
    /// The handler, if there is one.
    pub handler: Option<Handler>,
    /// How many values are on the operand stack.
    pub stack: u32,
    /// How many exceptions are on the handling list.
    pub handling: u32,
}

/// An opcode with its argument, at its spot.
#[derive(Debug, Drop)]
pub struct Instruction {
    /// The opcode.
    pub op: Op,
    /// What it is given.
    pub argument: Argument,
    /// Where it stands.
    pub spot: Spot,
}
