//! Names, and the numbers of a function's locals.

ghost use Rattle.std.specs.Prelude.{◌≡◌, ◌≤◌, length, IfOk};
ghost use Rattle.mon_code.specs.Programs.{is_text};
ghost use Rattle.mon_compile.specs.Expressions as spec;
ghost use Rattle.mon_compile.specs.Faults.{has_twin as is_twice};

use mon_trees::Text;
use sqlite_items::Items;
use std::alloc::{AllocError, Global};

/// A text with the same characters.
pub fn copy(alloc: Global, text: &Text) -> Result<Text, AllocError>
    ensures { IfOk result (λ copy. copy ≡ text.now) }
{
    Items::from_slice(alloc, text.as_slice())
}

/// Whether two texts have the same characters.
pub fn is_same(a: &Text, b: &Text) -> bool
    ensures { result ≡ is_text a.now b.now }
{
    let mut chars = a.as_slice();
    let mut others = b.as_slice();
    while let Some((c, more)) = chars.split_first() {
        let Some((other, left)) = others.split_first() else {
            return false;
        };
        if *c != *other {
            return false;
        }
        chars = more;
        others = left;
    }
    others.is_empty()
}

/// Whether a name is among these.
pub fn is_local(locals: &[Text], name: &Text) -> bool
    ensures { result ≡ spec.is_local locals.now name.now }
{
    for other in locals {
        if is_same(other, name) {
            return true;
        }
    }
    false
}

/// The number of a local: how many names stand before it.
pub fn number_of_local(locals: &[Text], name: &Text) -> usize
    ensures number { result ≡ spec.number_of_local locals.now name.now }
    ensures within { result ≤ length locals.now }
{
    for (k, other) in locals.iter().enumerate() {
        if is_same(other, name) {
            return k;
        }
    }
    locals.len()
}

/// Whether two of these names are equal.
pub fn has_twin(names: &[Text]) -> bool
    ensures { result ≡ is_twice names.now }
{
    let mut rest = names;
    while let Some((name, others)) = rest.split_first() {
        if is_local(others, name) {
            return true;
        }
        rest = others;
    }
    false
}
