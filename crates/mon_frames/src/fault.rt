ghost use Rattle.mon_frames.specs.declared.fault.FrameFault.TheVariants as frame_fault;
ghost use Rattle.mon_frames.specs.declared.fault.IterFault.TheVariants as iter_fault;
ghost use Rattle.mon_frames.specs.declared.fault.ResumeFault.TheVariants as resume_fault;
ghost use Rattle.std.specs.Prelude.{◌≡◌};

use mon_values::fault::Trouble;
use std::alloc::AllocError;
use thiserror::Error;

/// Why no frame was pushed.
#[derive(Clone, Copy, Debug, PartialEq, Eq, Error)]
pub enum FrameFault {
    /// As many frames stand as may.
    #[error("too many frames stand")]
    Full,
    #[error("out of memory")]
    Memory,
}

impl From<AllocError> for FrameFault {
    ghost from_gives = { λ _ e. e ≡ frame_fault.Memory };

    fn from(_: AllocError) -> FrameFault {
        FrameFault::Memory
    }
}

/// Why a value is not gone over.
#[derive(Clone, Copy, Debug, PartialEq, Eq, Error)]
pub enum IterFault {
    #[error("going over the value raises exception {0:?}")]
    Trouble(Trouble),
    #[error("out of memory")]
    Memory,
}

impl From<AllocError> for IterFault {
    ghost from_gives = { λ _ e. e ≡ iter_fault.Memory };

    fn from(_: AllocError) -> IterFault {
        IterFault::Memory
    }
}

/// Why a generator does not go on.
#[derive(Clone, Copy, Debug, PartialEq, Eq, Error)]
pub enum ResumeFault {
    #[error("the generator is running")]
    Running,
    #[error("the generator is finished")]
    Finished,
    /// It is not started, and the value that is sent is not None.
    #[error("the first value that is sent must be None")]
    NotNone,
    /// As many frames stand as may.
    #[error("too many frames stand")]
    Full,
    #[error("out of memory")]
    Memory,
}

impl From<AllocError> for ResumeFault {
    ghost from_gives = { λ _ e. e ≡ resume_fault.Memory };

    fn from(_: AllocError) -> ResumeFault {
        ResumeFault::Memory
    }
}
