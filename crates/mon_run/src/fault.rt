ghost use Rattle.std.specs.Prelude.{◌≡◌};
ghost use Rattle.mon_run.specs.declared.fault.RunFault.TheVariants as run_fault;

use mon_board::BoardFault;
use mon_control::ControlFault;
use mon_gate::GateFault;
use mon_interp::AdvanceFault;
use std::alloc::AllocError;
use thiserror::Error;

/// Why a plan was not run to its end.
#[derive(Clone, Copy, Debug, PartialEq, Eq, Error)]
pub enum RunFault {
    #[error("out of memory")]
    Memory,
}

impl From<AllocError> for RunFault {
    ghost from_gives = { λ _ e. e ≡ run_fault.Memory };

    fn from(_: AllocError) -> RunFault {
        RunFault::Memory
    }
}

impl From<BoardFault> for RunFault {
    ghost from_gives = { λ _ e. e ≡ run_fault.Memory };

    fn from(_: BoardFault) -> RunFault {
        RunFault::Memory
    }
}

impl From<ControlFault> for RunFault {
    ghost from_gives = { λ _ e. e ≡ run_fault.Memory };

    fn from(_: ControlFault) -> RunFault {
        RunFault::Memory
    }
}

impl From<AdvanceFault> for RunFault {
    ghost from_gives = { λ _ e. e ≡ run_fault.Memory };

    fn from(_: AdvanceFault) -> RunFault {
        RunFault::Memory
    }
}

impl From<GateFault> for RunFault {
    ghost from_gives = { λ _ e. e ≡ run_fault.Memory };

    fn from(_: GateFault) -> RunFault {
        RunFault::Memory
    }
}
