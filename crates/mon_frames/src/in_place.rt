//! What is done in place, without memory: all of it or nothing.

ghost use Rattle.std.specs.Prelude.{◌≡◌, ◌≤◌, ◌∷◌, length, drop, true, false, Some, None, slice_get, MatchOption, IfOk};
ghost use Rattle.mon_values.specs.declared.value.Value as item;
ghost use Rattle.mon_frames.specs.Items.{bound, integers_of, top_integers};

use crate::frame::{Locals, Operands};
use mon_values::value::Value;
use std::alloc::AllocError;

fn two_integers(a: &Value, b: &Value) -> Option<(i64, i64)>
    ensures { MatchOption result (integers_of a.now b.now ≡ None) (λ two. (a.now ≡ item.Int two.0) × (b.now ≡ item.Int two.1)) }
{
    match (a, b) {
        (Value::Int(a), Value::Int(b)) => Some((*a, *b)),
        _ => None,
    }
}

impl Operands {
    /// Puts a value on top where there is room for it; whether there was.
    pub fn push_within(&mut self, value: Value) -> bool
        ensures yes { result ≡ true → self.new ≡ value ∷ self.old }
        ensures no { result ≡ false → self.new ≡ self.old }
    {
        if self.items.len() < self.items.capacity() {
            self.items.push_reserved(value);
            true
        } else {
            false
        }
    }

    /// The topmost two values, the lower first, where both are integers.
    #[tactic(auto, using(crate::proofs::Counting::few_integers, crate::proofs::Counting::on_top))]
    pub fn integers(&self) -> Option<(i64, i64)>
        ensures { MatchOption result (top_integers self.now ≡ None) (λ two. self.now ≡ item.Int two.1 ∷ item.Int two.0 ∷ drop 2 self.now) }
    {
        let items = self.items.as_slice();
        if items.len() < 2 {
            return None;
        }
        two_integers(&items[items.len() - 2], &items[items.len() - 1])
    }

    /// Puts a value in the place of the topmost two.
    pub fn replace_two(&mut self, value: Value)
        requires { 2 ≤ length self.old }
        ensures { self.new ≡ value ∷ drop 2 self.old }
    {
        match self.items.pop() {
            Some(Value::Int(_)) => {}
            _ => {}
        }
        match self.items.pop() {
            Some(Value::Int(_)) => {}
            _ => {}
        }
        self.items.push_reserved(value);
    }
}

impl Locals {
    /// A copy of the value of a local, if there is such a local and it is bound.
    pub fn copy_at(&self, at: usize) -> Result<Option<Value>, AllocError>
        ensures { IfOk result (λ copy. MatchOption copy (bound (slice_get self.now at) ≡ None) (λ value. slice_get self.now at ≡ Some (Some value))) }
    {
        match self.items.get(at) {
            None => Ok(None),
            Some(None) => Ok(None),
            Some(Some(value)) => Ok(Some(value.copy()?)),
        }
    }
}
