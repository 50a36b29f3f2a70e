ghost use Rattle.std.specs.Prelude.{◌≡◌, ◌≤◌, map, IfOk};
ghost use Rattle.mon_values.specs.declared.value.Value.{Tuple as the_tuple};
ghost use Rattle.mon_values.specs.Ranges.{range_length};
ghost use Rattle.mon_values.specs.Weights.{made};
ghost use Rattle.mon_frames.specs.Items.{items_of, one_char, range_items};
ghost use Rattle.mon_builtins.specs.Answers.{AnswersValue};
ghost use Rattle.mon_builtins.specs.Builtins as spec;

use crate::given::Refusal;
use mon_shared::SharedItems;
use mon_values::fault::Trouble;
use mon_values::range::{range_item, range_len};
use mon_values::text::Text;
use mon_values::value::{Tuple, Value};
use mon_values::weight::{MAX_WEIGHT, made_tuple};
use std::alloc::{AllocError, Global};

/// The characters of a text, each as a text.
pub fn items_of_text(alloc: Global, chars: &[char]) -> Result<Tuple, AllocError>
    ensures { IfOk result (λ items. items ≡ map one_char chars.now) }
{
    let mut items = Vec::new(alloc);
    for c in chars {
        items.push(Value::Text(Text::from_chars(alloc, &[*c])?))?;
    }
    SharedItems::from_vec(items)
}

/// The first integers of a range, so many.
fn items_of_range(
    alloc: Global,
    start: i64,
    stop: i64,
    step: i64,
    count: u64,
) -> Result<Tuple, AllocError>
    requires { count ≤ range_length start stop step }
    ensures { IfOk result (λ items. items ≡ range_items start step 0 count) }
{
    let mut items = Vec::new(alloc);
    for place in 0..count {
        items.push(Value::Int(range_item(start, stop, step, place)))?;
    }
    SharedItems::from_vec(items)
}

fn tuple_of_text(alloc: Global, chars: &[char]) -> Result<Value, Refusal>
    ensures { AnswersValue result (made (the_tuple (map one_char chars.now))) }
{
    let items = items_of_text(alloc, chars)?;
    made_tuple(items).map_err(Refusal::Trouble)
}

fn tuple_of_range(alloc: Global, start: i64, stop: i64, step: i64) -> Result<Value, Refusal>
    ensures { AnswersValue result (made (the_tuple (range_items start step 0 (range_length start stop step)))) }
{
    let count = range_len(start, stop, step);
    if count > MAX_WEIGHT - 1 {
        return Err(Refusal::Trouble(Trouble::TOO_LARGE));
    }
    Ok(Value::Tuple(items_of_range(alloc, start, stop, step, count)?))
}

fn tuple_of_items(items: &Tuple) -> Result<Value, Refusal>
    ensures { AnswersValue result (made (the_tuple items.now)) }
{
    let items = items.share()?;
    made_tuple(items).map_err(Refusal::Trouble)
}

/// The items of a value, as a tuple.
fn gather(alloc: Global, x: &Value) -> Result<Value, Refusal>
    ensures { AnswersValue result (spec.gathered (items_of x.now)) }
{
    match x {
        Value::Text(text) => tuple_of_text(alloc, text.chars()),
        Value::Tuple(items) => tuple_of_items(items),
        Value::Range(start, stop, step) => tuple_of_range(alloc, *start, *stop, *step),
        _ => Err(Refusal::Trouble(Trouble::NOT_ITERABLE)),
    }
}

/// `tuple()` and `tuple(x)`
pub fn tuple(alloc: Global, args: &[Value]) -> Result<Value, Refusal>
    ensures { AnswersValue result (spec.tuple_of args.now) }
{
    match args {
        [] => Ok(Value::Tuple(SharedItems::new())),
        [x] => gather(alloc, x),
        _ => Err(Refusal::Trouble(Trouble::WRONG_COUNT)),
    }
}
