//! Names that are bound twice.

ghost use Rattle.std.specs.Prelude.{◌≡◌, []};
ghost use Rattle.mon_compile.specs.Faults as spec;
ghost use Rattle.mon_compile.specs.BoundNames as bound_names;

use crate::scope::{has_twin, is_same};
use mon_trees::Text;
use mon_trees::tree::ModuleItem;

/// The line of the first item that binds a name that an earlier item binds, or is a `def` with two equal parameters.
pub fn duplicate(items: &[ModuleItem]) -> Option<u32>
    ensures { result ≡ spec.duplicate [] items.now }
{
    for (k, item) in items.iter().enumerate() {
        if let Some(line) = duplicate_at(&items[..k], item) {
            return Some(line);
        }
    }
    None
}

// The line of an item that binds a name of these again, or the same parameter twice.
fn duplicate_at(before: &[ModuleItem], item: &ModuleItem) -> Option<u32>
    ensures { result ≡ bound_names.duplicate_at before.now item.now }
{
    match item {
        ModuleItem::Function(function) => {
            let twice = binds(before, &function.name) || has_twin(function.parameters.as_slice());
            twice.then_some(function.line)
        }
        ModuleItem::Constant(line, name, _) => binds(before, name).then_some(*line),
        ModuleItem::Text(_) => None,
    }
}

// Whether one of these items binds a name.
fn binds(items: &[ModuleItem], name: &Text) -> bool
    ensures { result ≡ bound_names.binds items.now name.now }
{
    for item in items {
        if item_binds(item, name) {
            return true;
        }
    }
    false
}

fn item_binds(item: &ModuleItem, name: &Text) -> bool
    ensures { result ≡ bound_names.item_binds item.now name.now }
{
    match item {
        ModuleItem::Function(function) => is_same(&function.name, name),
        ModuleItem::Constant(_, constant, _) => is_same(constant, name),
        ModuleItem::Text(_) => false,
    }
}
