ghost use Rattle.std.specs.Prelude.{◌≡◌, ◌<◌, IfOk};
ghost use Rattle.mon_builtins.specs.Answers.{AnswersCall, GivesMade};
ghost use Rattle.mon_builtins.specs.Builtins as spec;

use crate::convert::{int, text};
use crate::extreme::{Wanted, extreme};
use crate::given::{BuiltinFault, Given, Refusal, raise};
use crate::number::{abs, len, range};
use crate::print::print;
use crate::sequence::tuple;
use mon_frames::{Frames, IterFault};
use mon_values::fault::Trouble;
use mon_values::text::Text;
use mon_values::value::{Exc, Value};
use std::alloc::Global;

/// The class of StopIteration.
const STOP_ITERATION: u8 = 3;

/// What is given for a value or an exception of the machine.
fn give(alloc: Global, answer: Result<Value, Trouble>) -> Result<Given, BuiltinFault>
    ensures { IfOk result (λ given. given ≡ spec.given_by answer) }
{
    match answer {
        Ok(v) => Ok(Given::Value(v)),
        Err(trouble) => Ok(raise(alloc, trouble)?),
    }
}

/// The same, of an answer for which memory may have been short.
fn give_made(alloc: Global, answer: Result<Value, Refusal>) -> Result<Given, BuiltinFault>
    ensures { GivesMade result answer }
{
    match answer {
        Ok(v) => Ok(Given::Value(v)),
        Err(Refusal::Trouble(trouble)) => Ok(raise(alloc, trouble)?),
        Err(Refusal::Memory) => Err(BuiltinFault::Memory),
    }
}

/// The next value of an iterator, or StopIteration.
fn next_of_iterator(frames: &mut Frames, iterator: u32) -> Result<Given, BuiltinFault>
    ensures { AnswersCall result (spec.iterator_next frames.old iterator) frames.old frames.new }
{
    match frames.next_item(iterator)? {
        Some(v) => Ok(Given::Value(v)),
        None => Ok(Given::Raised(Exc {
            class: STOP_ITERATION,
            arg: None,
        })),
    }
}

/// `next(x)`
fn next(alloc: Global, args: &[Value], frames: &mut Frames) -> Result<Given, BuiltinFault>
    ensures { AnswersCall result (spec.next_due frames.old args.now) frames.old frames.new }
{
    match args {
        [Value::Iter(number)] => next_of_iterator(frames, *number),
        [Value::Gen(number)] => Ok(Given::Next(*number)),
        [_] => Ok(raise(alloc, Trouble::WRONG_ARGUMENT)?),
        _ => Ok(raise(alloc, Trouble::WRONG_COUNT)?),
    }
}

/// `iter(x)`
fn iter(alloc: Global, args: &[Value], frames: &mut Frames) -> Result<Given, BuiltinFault>
    ensures { AnswersCall result (spec.iter_due frames.old args.now) frames.old frames.new }
{
    match args {
        [x] => match frames.iterate(x.copy()?) {
            Ok(v) => Ok(Given::Value(v)),
            Err(IterFault::Trouble(trouble)) => Ok(raise(alloc, trouble)?),
            Err(IterFault::Memory) => Err(BuiltinFault::Memory),
        },
        _ => Ok(raise(alloc, Trouble::WRONG_COUNT)?),
    }
}

/// What the builtin of this number gives of these arguments. The name of function k is the k-th of `names`, from 0, and
/// empty where there is none. `iter` may add an iterator to the frames, and `next` may move one on; else they stay.
pub fn call_builtin(
    alloc: Global,
    number: u8,
    args: &[Value],
    names: &[Text],
    frames: &mut Frames,
) -> Result<Given, BuiltinFault>
    requires { number < 11 }
    ensures { AnswersCall result (spec.builtin_due number args.now names.now frames.old) frames.old frames.new }
{
    match number {
        0 => print(alloc, args, names),
        1 => give(alloc, len(args)),
        2 => give(alloc, range(args)),
        3 => give_made(alloc, text(alloc, args, names)),
        4 => give(alloc, int(args)),
        5 => give(alloc, abs(args)),
        6 => give_made(alloc, extreme(alloc, Wanted::Least, args)),
        7 => give_made(alloc, extreme(alloc, Wanted::Greatest, args)),
        8 => give_made(alloc, tuple(alloc, args)),
        9 => next(alloc, args, frames),
        _ => iter(alloc, args, frames),
    }
}
