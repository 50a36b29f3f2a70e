//! The builtins of the machine.
#![tactic(auto)]

mod call;
mod convert;
mod extreme;
mod given;
mod literal;
mod number;
mod print;
mod sequence;

pub use call::call_builtin;
pub use given::{BuiltinFault, Given};
