ghost use Rattle.std.specs.Prelude.{◌≡◌};
ghost use Rattle.std.specs.List.{list_any};
ghost use Rattle.mon_values.specs.Comparing.{equals};
ghost use Rattle.mon_values.specs.Containing as spec;

use crate::arith::integer;
use crate::fault::Trouble;
use crate::range::in_range;
use crate::value::Value;

/// Whether a text begins with another.
#[tactic(auto, using(crate::proofs::Texts::begins_past))]
fn begins_with(part: &[char], text: &[char]) -> bool
    ensures { result ≡ spec.begins_with part.now text.now }
{
    for (i, c) in part.iter().enumerate() {
        match text.get(i) {
            None => return false,
            Some(d) => {
                if c != d {
                    return false;
                }
            }
        }
    }
    true
}

/// Whether a text stands in another.
#[tactic(auto, using(crate::proofs::Texts::stands_here, crate::proofs::Texts::stands_next, crate::proofs::Texts::stands_last))]
fn stands_in(part: &[char], text: &[char]) -> bool
    ensures { result ≡ spec.stands_in part.now text.now }
{
    for start in 0..text.len() {
        if begins_with(part, &text[start..]) {
            return true;
        }
    }
    begins_with(part, &[])
}

/// Whether an item of a tuple is equal to a value.
fn has_equal(item: &Value, items: &[Value]) -> bool
    ensures { result ≡ list_any (equals item.now) items.now }
{
    items.iter().any(|x| item.equals(x))
}

/// Whether a value stands in another: a text in a text, an item in a tuple, an integer in a range.
pub fn contains(item: &Value, whole: &Value) -> Result<bool, Trouble>
    ensures { result ≡ spec.contains_of item.now whole.now }
{
    match whole {
        Value::Text(text) => match item {
            Value::Text(part) => Ok(stands_in(part.chars(), text.chars())),
            _ => Err(Trouble::WRONG_ARGUMENT),
        },
        Value::Tuple(items) => Ok(has_equal(item, items.as_slice())),
        Value::Range(start, stop, step) => match integer(item) {
            Some(z) => Ok(in_range(*start, *stop, *step, z)),
            None => Ok(false),
        },
        _ => Err(Trouble::NOT_ITERABLE),
    }
}
