//! The faults that a module's trees show.

ghost use Rattle.std.specs.Prelude.{◌≡◌, IfOk};
ghost use Rattle.mon_compile.specs.Faults.{fault_of_tree};

use crate::duplicates::duplicate;
use crate::fault::CompileFault;
use crate::large::large;
use crate::misplaced::misplaced;
use mon_trees::tree::Module;
use std::alloc::{AllocError, Global};

/// The first fault of a module, but for too many locations.
pub fn tree_fault(alloc: Global, module: &Module) -> Result<Option<CompileFault>, AllocError>
    ensures { IfOk result (λ fault. fault ≡ fault_of_tree «module».now) }
{
    let items = module.items.as_slice();
    if let Some(line) = duplicate(items) {
        return Ok(Some(CompileFault::DuplicateName(line)));
    }
    if let Some(line) = misplaced(alloc, items)? {
        return Ok(Some(CompileFault::Misplaced(line)));
    }
    match large(items) {
        Some(line) => Ok(Some(CompileFault::TooLarge(line))),
        None => Ok(None),
    }
}
