ghost use Rattle.std.specs.Prelude.{◌≡◌};
ghost use Rattle.mon_outside.specs.declared.store.StoreFault.TheVariants as store_fault;

use std::alloc::{AllocError, Global};
use thiserror::Error;

/// The most bytes that one read appends: one more than a file may have.
pub const READ_LIMIT: usize = 262_145;

/// Why contents were not read.
#[derive(Clone, Copy, Debug, PartialEq, Eq, Error)]
pub enum StoreFault {
    /// The store has no such name, or could not read what it stands for.
    #[error("the contents could not be read")]
    Failed,
    #[error("out of memory")]
    Memory,
}

impl From<AllocError> for StoreFault {
    ghost from_gives = { λ _ e. e ≡ store_fault.Memory };

    fn from(_: AllocError) -> StoreFault {
        StoreFault::Memory
    }
}

/// Named contents.
pub trait Store {
    ghost use Rattle.std.specs.Prelude.{◌≡◌, ℕ, List, Option, OnOk, OnErr};
    ghost use Rattle.mon_outside.specs.Outside.{ReadsAll, ReadCause};

    /// What a name stands for, where the store tells it.
    ghost holds: { Self → List ℕ → Option (List ℕ) };

    /// How many reads have failed; it stops at 18,446,744,073,709,551,615.
    ghost faults: { Self → ℕ };

    /// The name of the last read that failed.
    ghost last_failed: { Self → Option (List ℕ) };

    /// Appends what the name stands for, or its first 262,145 bytes where it has more.
    fn read(&mut self, alloc: Global, name: &str, into: &mut Vec<u8>) -> Result<(), StoreFault>
        ensures kept { (n : List ℕ) → holds self.new n ≡ holds self.old n }
        ensures bytes { OnOk result (ReadsAll (holds self.old name.now) into.old.items into.new.items) }
        ensures unread { OnErr result (into.new.items ≡ into.old.items) }
        ensures cause { ReadCause name.now (faults self.old) (faults self.new) (last_failed self.old) (last_failed self.new) result };
}
