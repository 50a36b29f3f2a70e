ghost use Rattle.std.specs.Prelude.{◌≡◌, ◌<◌};
ghost use Rattle.mon_values.specs.Answers.{AnswersIndex};
ghost use Rattle.mon_values.specs.Arithmetic as arithmetic;
ghost use Rattle.mon_values.specs.Indexing as spec;

use crate::arith::integer;
use crate::fault::{IndexFault, Trouble};
use crate::range::{range_item, range_len};
use crate::text::Text;
use crate::value::Value;
use std::alloc::Global;

/// The place that an index names among so many: from the start, or below 0 from the end.
fn place_of(index: i64, count: u64) -> Option<u64>
    ensures { result ≡ spec.place_of index count }
{
    if index < 0 {
        return count.checked_sub(index.unsigned_abs());
    }
    let place = index as u64;
    if place < count { Some(place) } else { None }
}

/// The place that a value names as an index, or what it raises.
fn place_at(at: &Value, count: u64) -> Result<u64, Trouble>
    ensures value { result ≡ spec.place_at (arithmetic.integer at.now) count }
{
    match integer(at) {
        None => Err(Trouble::WRONG_ARGUMENT),
        Some(index) => match place_of(index, count) {
            Some(place) => Ok(place),
            None => Err(Trouble::INDEX_OUT_OF_RANGE),
        },
    }
}

fn index_text(alloc: Global, text: &[char], at: &Value) -> Result<Value, IndexFault>
    ensures { AnswersIndex result (spec.text_item text.now (arithmetic.integer at.now)) }
{
    match place_at(at, text.len() as u64) {
        Err(trouble) => Err(IndexFault::Trouble(trouble)),
        Ok(place) => match text.get(place as usize) {
            None => Err(IndexFault::Trouble(Trouble::INDEX_OUT_OF_RANGE)),
            Some(c) => Ok(Value::Text(Text::from_chars(alloc, &[*c])?)),
        },
    }
}

fn index_tuple(items: &[Value], at: &Value) -> Result<Value, IndexFault>
    ensures { AnswersIndex result (spec.tuple_item items.now (arithmetic.integer at.now)) }
{
    match place_at(at, items.len() as u64) {
        Err(trouble) => Err(IndexFault::Trouble(trouble)),
        Ok(place) => match items.get(place as usize) {
            None => Err(IndexFault::Trouble(Trouble::INDEX_OUT_OF_RANGE)),
            Some(item) => Ok(item.copy()?),
        },
    }
}

#[tactic(auto, using(crate::proofs::Places::place_below))]
fn index_range(start: i64, stop: i64, step: i64, at: &Value) -> Result<Value, IndexFault>
    ensures { AnswersIndex result (spec.range_item_at start stop step (arithmetic.integer at.now)) }
{
    match place_at(at, range_len(start, stop, step)) {
        Err(trouble) => Err(IndexFault::Trouble(trouble)),
        Ok(place) => Ok(Value::Int(range_item(start, stop, step, place))),
    }
}

/// The item of a text, a tuple or a range at an index, from 0 on or below 0 from the end.
/// A value without items raises before the index is looked at.
pub fn index(alloc: Global, whole: &Value, at: &Value) -> Result<Value, IndexFault>
    ensures { AnswersIndex result (spec.index_of whole.now at.now) }
{
    match whole {
        Value::Text(text) => index_text(alloc, text.chars(), at),
        Value::Tuple(items) => index_tuple(items.as_slice(), at),
        Value::Range(start, stop, step) => index_range(*start, *stop, *step, at),
        _ => Err(IndexFault::Trouble(Trouble::UNSUPPORTED_OPERAND)),
    }
}
