//! Instructions that make a tuple of values, and values of a sequence.

ghost use Rattle.std.specs.Prelude.{◌≡◌, ◌<◌, ◌++◌, Some, OnOk, IfOk};
ghost use Rattle.mon_frames.specs.Items.{items_of, count_of, or_none};
ghost use Rattle.mon_machine.specs.Operations as spec;

use crate::answer::{give, go_on, raise};
use mon_frames::{Frame, Operands, item_at, item_count};
use mon_machine::Ending;
use mon_shared::SharedItems;
use mon_values::fault::Trouble;
use mon_values::value::Value;
use mon_values::weight::made_tuple;
use std::alloc::{AllocError, Global};

/// `BUILD_TUPLE` of so many values, the last on top.
pub fn build_tuple(alloc: Global, frame: &mut Frame, count: u32) -> Result<Ending, AllocError>
    requires { frame.old.index < 65536 }
    ensures { IfOk result (λ ending. spec.build_tuple frame.old count frame.old.stack ≡ record { frame = frame.new; ending = ending }) }
{
    let count = count as usize;
    if frame.stack.len() < count {
        return Ok(Ending::Misses);
    }
    let items = SharedItems::from_vec(frame.stack.take_top(count)?)?;
    give(alloc, frame, made_tuple(items))
}

// Pushes the items of a value, of which there are so many, the first on top.
fn push_items(
    alloc: Global,
    stack: &mut Operands,
    whole: &Value,
    count: u64,
) -> Result<(), AllocError>
    requires { count_of (items_of whole.now) ≡ Some count }
    ensures { OnOk result (stack.new ≡ or_none (items_of whole.now) ++ stack.old) }
{
    let mut left = count;
    while left > 0 {
        left -= 1;
        let Some(item) = item_at(alloc, whole, left)? else {
            unreachable!()
        };
        stack.push(item)?;
    }
    Ok(())
}

/// `UNPACK_SEQUENCE` into so many values, the first on top.
pub fn unpack_sequence(alloc: Global, frame: &mut Frame, count: u32) -> Result<Ending, AllocError>
    requires { frame.old.index < 65536 }
    ensures { IfOk result (λ ending. spec.unpack_sequence frame.old count frame.old.stack ≡ record { frame = frame.new; ending = ending }) }
{
    let Some(whole) = frame.stack.pop() else {
        return Ok(Ending::Misses);
    };
    let Some(found) = item_count(&whole) else {
        return raise(alloc, Trouble::NOT_ITERABLE);
    };
    if found != u64::from(count) {
        return raise(alloc, Trouble::WRONG_NUMBER_OF_VALUES);
    }
    push_items(alloc, &mut frame.stack, &whole, found)?;
    Ok(go_on(frame))
}
