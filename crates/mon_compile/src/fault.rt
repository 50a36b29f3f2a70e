//! Why a module has no program.

ghost use Rattle.std.specs.Prelude.{◌≡◌};
ghost use Rattle.mon_compile.specs.declared.fault.CompileFault.TheVariants.{Memory};
ghost use Rattle.mon_compile.specs.Answered.{fault_of_emission};

use crate::emitter::EmitFault;
use std::alloc::AllocError;
use thiserror::Error;

/// Why a module has no program; a line counts from 1.
#[derive(Clone, Copy, Debug, Drop, PartialEq, Eq, Error)]
pub enum CompileFault {
    /// The item on this line binds a name that an earlier one binds, or is a `def` with two equal parameters.
    #[error("DuplicateName {0}")]
    DuplicateName(u32),
    /// A `break` or `continue` outside a loop, or a `def` with over 255 locals.
    #[error("Misplaced {0}")]
    Misplaced(u32),
    /// A constant over the limits of weight and depth.
    #[error("TooLarge {0}")]
    TooLarge(u32),
    /// The program would have over 65,536 locations.
    #[error("TooManyLocations")]
    TooManyLocations,
    /// Memory ran out.
    #[error("Memory")]
    Memory,
}

impl From<AllocError> for CompileFault {
    ghost from_gives = { λ _ e. e ≡ Memory };

    fn from(_: AllocError) -> CompileFault {
        CompileFault::Memory
    }
}

impl From<EmitFault> for CompileFault {
    ghost from_gives = { λ fault e. e ≡ fault_of_emission fault };

    fn from(fault: EmitFault) -> CompileFault {
        match fault {
            EmitFault::TooManyLocations => CompileFault::TooManyLocations,
            EmitFault::Memory => CompileFault::Memory,
        }
    }
}
