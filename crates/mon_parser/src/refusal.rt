ghost use Rattle.std.specs.Prelude.{◌≡◌};
ghost use Rattle.mon_parser.specs.declared.refusal.Refusal.TheVariants.{Memory};

use std::alloc::AllocError;

/// Why a part of an item was not read.
#[derive(Clone, Copy, Debug, Drop, PartialEq, Eq)]
pub enum Refusal {
    Syntax,
    Memory,
}

impl From<AllocError> for Refusal {
    ghost from_gives = { λ _ e. e ≡ Memory };

    fn from(_: AllocError) -> Refusal {
        Refusal::Memory
    }
}
