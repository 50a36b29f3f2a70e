ghost use Rattle.mon_builtins.specs.declared.given.BuiltinFault.TheVariants as builtin_fault;
ghost use Rattle.mon_builtins.specs.declared.given.Refusal.TheVariants as refusal;
ghost use Rattle.std.specs.Prelude.{◌≡◌, IfOk};
ghost use Rattle.mon_builtins.specs.Builtins as spec;

use mon_values::fault::Trouble;
use mon_values::text::Text;
use mon_values::trouble::trouble_exc;
use mon_values::value::{Exc, Value};
use std::alloc::{AllocError, Global};
use thiserror::Error;

/// What a call of a builtin gives.
#[derive(Debug, Drop)]
pub enum Given {
    Value(Value),
    /// The value None, and a text for the output.
    Printed(Text),
    Raised(Exc),
    /// What the generator of this number gives when it is resumed.
    Next(u32),
}

/// Why a builtin gave nothing.
#[derive(Clone, Copy, Debug, PartialEq, Eq, Error)]
pub enum BuiltinFault {
    #[error("out of memory")]
    Memory,
}

impl From<AllocError> for BuiltinFault {
    ghost from_gives = { λ _ e. e ≡ builtin_fault.Memory };

    fn from(_: AllocError) -> BuiltinFault {
        BuiltinFault::Memory
    }
}

/// Why a builtin gave no value.
#[derive(Clone, Copy, Debug, PartialEq, Eq, Error)]
pub enum Refusal {
    #[error("the builtin raises exception {0:?}")]
    Trouble(Trouble),
    #[error("out of memory")]
    Memory,
}

impl From<AllocError> for Refusal {
    ghost from_gives = { λ _ e. e ≡ refusal.Memory };

    fn from(_: AllocError) -> Refusal {
        Refusal::Memory
    }
}

/// An exception of the machine, as what a builtin gives.
pub fn raise(alloc: Global, trouble: Trouble) -> Result<Given, AllocError>
    ensures { IfOk result (λ given. given ≡ spec.raised trouble) }
{
    Ok(Given::Raised(trouble_exc(alloc, trouble, &[])?))
}
