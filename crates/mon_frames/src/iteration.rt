ghost use Rattle.std.specs.Prelude.{◌≡◌, ◌<◌, Some, length, map, slice_get, IfOk};
ghost use Rattle.mon_values.specs.Ranges.{range_length};
ghost use Rattle.mon_frames.specs.Items.{items_of, count_of, range_items, one_char, or_none};
ghost use Rattle.mon_frames.specs.Answers.{GivesFirst};

use mon_values::range::{range_item, range_len};
use mon_values::text::Text;
use mon_values::value::Value;
use std::alloc::{AllocError, Global};
use std::marker::Model;

/// An iterator over the items of a text, a tuple or a range, which contracts see as the list of what it has yet to give.
#[derive(Debug, Drop)]
pub struct Iteration {
    // None once its end was reached
    over: Value,
    // how many items it gave
    place: u64,
    // how many items `over` has
    count: u64,
}

impl Model for Iteration {
    ghost use Rattle.std.specs.Prelude.{◌≡◌, List, drop, length};
    ghost use Rattle.mon_values.specs.declared.value.Value.{Value as Item};
    ghost use Rattle.mon_values.specs.contracts.value.Value as value;
    ghost use Rattle.mon_frames.specs.Items.{items_of, or_none};
    ghost use Rattle.std.specs.Coded.{coded_list};

    ghost Value = { List Item };

    ghost coded = { coded_list value.the_row.coded };

    ghost view = { λ i. drop i.place (or_none (items_of i.over)) };

    ghost invariant = { λ i. i.count ≡ length (or_none (items_of i.over)) };
}

impl Iteration {
    /// An iterator over the items of a value, which it takes; none of a value without items.
    #[tactic(auto, using(crate::proofs::Counting::counted_some, crate::proofs::Counting::counted_none, crate::proofs::Counting::counted_length))]
    pub fn over(v: Value) -> Option<Iteration>
        ensures { result ≡ items_of v }
    {
        let count = item_count(&v)?;
        Some(Iteration {
            over: v,
            place: 0,
            count,
        })
    }

    /// The next item, if one is left. Where none is, the value that was gone over is dropped.
    #[tactic(auto, using(crate::proofs::Counting::none_of_none, crate::proofs::Counting::none_dropped, crate::proofs::Lists::left_some))]
    pub fn next(&mut self, alloc: Global) -> Result<Option<Value>, AllocError>
        ensures { GivesFirst result self.old self.new }
    {
        if self.place >= self.count {
            self.over = Value::None;
            self.count = 0;
            return Ok(None);
        }
        let item = item_within(alloc, &self.over, self.place)?;
        self.place += 1;
        Ok(Some(item))
    }
}

/// How many items a value has, if it can be gone over.
pub fn item_count(v: &Value) -> Option<u64>
    ensures { result ≡ count_of (items_of v.now) }
{
    match v {
        Value::Text(text) => Some(text.chars().len() as u64),
        Value::Tuple(items) => Some(items.len() as u64),
        Value::Range(start, stop, step) => Some(integer_count(*start, *stop, *step)),
        _ => None,
    }
}

fn integer_count(start: i64, stop: i64, step: i64) -> u64
    ensures { result ≡ length (range_items start step 0 (range_length start stop step)) }
{
    range_len(start, stop, step)
}

/// The item of a value at a place, from 0, if there is one.
#[tactic(auto, using(crate::proofs::Counting::counted_length, crate::proofs::Counting::none_past, crate::proofs::Counting::none_uncounted))]
pub fn item_at(alloc: Global, v: &Value, place: u64) -> Result<Option<Value>, AllocError>
    ensures { IfOk result (λ item. item ≡ slice_get (or_none (items_of v.now)) place) }
{
    let Some(count) = item_count(v) else {
        return Ok(None);
    };
    if place >= count {
        return Ok(None);
    }
    Ok(Some(item_within(alloc, v, place)?))
}

/// The item of a value at a place where it has one.
fn item_within(alloc: Global, v: &Value, place: u64) -> Result<Value, AllocError>
    requires { place < length (or_none (items_of v.now)) }
    ensures { IfOk result (λ item. Some item ≡ slice_get (or_none (items_of v.now)) place) }
{
    match v {
        Value::Text(text) => char_at(alloc, text.chars(), place as usize),
        Value::Tuple(items) => copy_at(items.as_slice(), place as usize),
        Value::Range(start, stop, step) => Ok(integer_at(*start, *stop, *step, place)),
        _ => unreachable!(),
    }
}

fn char_at(alloc: Global, chars: &[char], place: usize) -> Result<Value, AllocError>
    requires { place < length chars.now }
    ensures { IfOk result (λ item. Some item ≡ slice_get (map one_char chars.now) place) }
{
    Ok(Value::Text(Text::from_chars(alloc, &[chars[place]])?))
}

fn copy_at(items: &[Value], place: usize) -> Result<Value, AllocError>
    requires { place < length items.now }
    ensures { IfOk result (λ item. Some item ≡ slice_get items.now place) }
{
    match items.get(place) {
        None => unreachable!(),
        Some(item) => Ok(item.copy()?),
    }
}

fn integer_at(start: i64, stop: i64, step: i64, place: u64) -> Value
    requires { place < length (range_items start step 0 (range_length start stop step)) }
    ensures { Some result ≡ slice_get (range_items start step 0 (range_length start stop step)) place }
{
    Value::Int(range_item(start, stop, step, place))
}
