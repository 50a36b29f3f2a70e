//! Why a request has no answer.
ghost use Rattle.std.specs.Prelude.{◌≡◌};
ghost use Rattle.mon_main.specs.declared.fault.ReplyFault.TheVariants as fault;
ghost use Rattle.mon_outside.specs.declared.store.StoreFault.TheVariants as store_fault;
ghost use Rattle.mon_main.specs.Replies.{of_store};

use mon_forms::PrintFault;
use mon_outside::StoreFault;
use mon_run::RunFault;
use std::alloc::AllocError;
use thiserror::Error;

/// Why a request has no answer.
#[derive(Clone, Copy, Debug, PartialEq, Eq, Error)]
pub enum ReplyFault {
    /// The store could not read a name.
    #[error("the contents could not be read")]
    Read,
    #[error("out of memory")]
    Memory,
}

impl From<AllocError> for ReplyFault {
    ghost from_gives = { λ _ e. e ≡ fault.Memory };

    fn from(_: AllocError) -> ReplyFault {
        ReplyFault::Memory
    }
}

impl From<RunFault> for ReplyFault {
    ghost from_gives = { λ _ e. e ≡ fault.Memory };

    fn from(_: RunFault) -> ReplyFault {
        ReplyFault::Memory
    }
}

impl From<PrintFault> for ReplyFault {
    ghost from_gives = { λ _ e. e ≡ fault.Memory };

    fn from(_: PrintFault) -> ReplyFault {
        ReplyFault::Memory
    }
}

impl From<StoreFault> for ReplyFault {
    ghost from_gives = { λ f e. e ≡ of_store f };

    fn from(fault: StoreFault) -> ReplyFault {
        match fault {
            StoreFault::Failed => ReplyFault::Read,
            StoreFault::Memory => ReplyFault::Memory,
        }
    }
}
