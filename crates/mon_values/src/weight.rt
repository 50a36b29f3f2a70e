ghost use Rattle.std.specs.Prelude.{◌≡◌, nat_le, map, sum};
ghost use Rattle.mon_values.specs.Weights.{weight, exc_weight, depth, exc_depth, greatest, left_of, made};
ghost use Rattle.mon_values.specs.declared.value.Value.{Tuple as the_tuple};

use crate::fault::Trouble;
use crate::value::{Exc, Tuple, Value};

/// The greatest weight that a value may have.
pub const MAX_WEIGHT: u64 = 4096;

/// The greatest depth that a value may have.
pub const MAX_DEPTH: u64 = 64;

impl Value {
    ghost use Rattle.std.specs.Prelude.{◌≡◌, nat_le};
    ghost use Rattle.mon_values.specs.Weights.{weight, depth, left_of};

    /// What is left of a budget after the weight of this value, if it suffices. Looks at no more parts than the budget counts.
    #[cycle(spend)]
    pub fn spend(&self, budget: u64) -> Option<u64>
        ensures { result ≡ left_of budget (weight self.now) }
    {
        match self {
            Value::Text(text) => budget.checked_sub((text.len() as u64).max(1)),
            Value::Tuple(items) => spend_items(items.as_slice(), budget.checked_sub(1)?),
            Value::Exc(exc) => exc.spend(budget),
            _ => budget.checked_sub(1),
        }
    }

    /// Whether the weight is at most `limit`. Looks at no more parts than that.
    pub fn weighs_at_most(&self, limit: u64) -> bool
        ensures { result ≡ nat_le (weight self.now) limit }
    {
        self.spend(limit).is_some()
    }

    /// Whether the depth is at most `limit`.
    #[cycle(nest)]
    pub fn nests_at_most(&self, limit: u64) -> bool
        ensures { result ≡ nat_le (depth self.now) limit }
    {
        match self {
            Value::Tuple(items) => limit > 0 && all_nest_at_most(items.as_slice(), limit - 1),
            Value::Exc(exc) => exc.nests_at_most(limit),
            _ => true,
        }
    }
}

impl Exc {
    ghost use Rattle.std.specs.Prelude.{◌≡◌, nat_le};
    ghost use Rattle.mon_values.specs.Weights.{exc_weight, exc_depth, left_of};

    /// What is left of a budget after the weight of this exception, if it suffices.
    #[cycle(spend)]
    pub fn spend(&self, budget: u64) -> Option<u64>
        ensures { result ≡ left_of budget (exc_weight self.now) }
    {
        let left = budget.checked_sub(1)?;
        match &self.arg {
            Some(value) => value.get().spend(left),
            None => Some(left),
        }
    }

    /// Whether the depth is at most `limit`.
    #[cycle(nest)]
    pub fn nests_at_most(&self, limit: u64) -> bool
        ensures { result ≡ nat_le (exc_depth self.now) limit }
    {
        match &self.arg {
            Some(value) => limit > 0 && value.get().nests_at_most(limit - 1),
            None => limit > 0,
        }
    }
}

/// What is left of a budget after the weights of these values, if it suffices.
#[cycle(spend)]
#[tactic(auto, using(crate::proofs::Budgets::none_left, crate::proofs::Budgets::left_then))]
pub fn spend_items(items: &[Value], budget: u64) -> Option<u64>
    ensures { result ≡ left_of budget (sum (map weight items.now)) }
{
    let mut left = budget;
    for item in items {
        left = item.spend(left)?;
    }
    Some(left)
}

/// Whether the depth of each of these values is at most `limit`.
#[cycle(nest)]
#[tactic(auto, using(crate::proofs::Budgets::greatest_then, crate::proofs::Budgets::greatest_above))]
pub fn all_nest_at_most(items: &[Value], limit: u64) -> bool
    ensures { result ≡ nat_le (greatest (map depth items.now)) limit }
{
    for item in items {
        if !item.nests_at_most(limit) {
            return false;
        }
    }
    true
}

/// The tuple as a value, where it keeps the limits of weight and depth; the weight is tried first.
#[tactic(auto, using(crate::proofs::Making::items_heavy, crate::proofs::Making::items_deep, crate::proofs::Making::items_made))]
pub fn made_tuple(items: Tuple) -> Result<Value, Trouble>
    ensures { result ≡ made (the_tuple items) }
{
    let Some(_) = spend_items(items.as_slice(), MAX_WEIGHT - 1) else {
        return Err(Trouble::TOO_LARGE);
    };
    if !all_nest_at_most(items.as_slice(), MAX_DEPTH - 1) {
        return Err(Trouble::NESTED_TOO_DEEPLY);
    }
    Ok(Value::Tuple(items))
}
