ghost use Rattle.std.specs.Prelude.{◌≡◌};
ghost use Rattle.mon_values.specs.Truth.{truth};

use crate::range::range_len;
use crate::value::Value;

/// Whether a value counts as true: None, False, 0, the empty text, the empty tuple and an empty range do not.
pub fn is_true(v: &Value) -> bool
    ensures { result ≡ truth v.now }
{
    match v {
        Value::None => false,
        Value::Bool(b) => *b,
        Value::Int(n) => *n != 0,
        Value::Text(text) => text.len() != 0,
        Value::Tuple(items) => items.len() != 0,
        Value::Range(start, stop, step) => range_len(*start, *stop, *step) != 0,
        _ => true,
    }
}
