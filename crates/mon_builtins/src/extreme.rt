ghost use Rattle.std.specs.Prelude.{◌≡◌};
ghost use Rattle.mon_values.specs.Ranges.{range_length};
ghost use Rattle.mon_frames.specs.Items.{items_of, range_items};
ghost use Rattle.mon_builtins.specs.Answers.{AnswersValue};
ghost use Rattle.mon_builtins.specs.Extremes as spec;

use crate::given::Refusal;
use crate::sequence::items_of_text;
use mon_values::compare::compare;
use mon_values::fault::Trouble;
use mon_values::operator::CmpOp;
use mon_values::range::{range_item, range_len};
use mon_values::value::Value;
use std::alloc::Global;

/// Which of several values is wanted.
#[derive(Clone, Copy, Debug, PartialEq, Eq)]
pub enum Wanted {
    Least,
    Greatest,
}

impl Wanted {
    ghost use Rattle.std.specs.Prelude.{◌≡◌};
    ghost use Rattle.mon_builtins.specs.Extremes as spec;

    /// What is asked of a value beside the best one before it.
    fn op(self) -> CmpOp
        ensures { result ≡ spec.asked self }
    {
        match self {
            Wanted::Least => CmpOp::Lt,
            Wanted::Greatest => CmpOp::Gt,
        }
    }

    /// Whether it is the first of a range with this step, which is not 0.
    fn is_first(self, step: i64) -> bool
        ensures { result ≡ spec.is_first self step }
    {
        match self {
            Wanted::Least => step > 0,
            Wanted::Greatest => step <= 0,
        }
    }
}

/// The best of a value and of those that follow.
fn best_of(op: CmpOp, first: &Value, others: &[Value]) -> Result<Value, Refusal>
    ensures { AnswersValue result (spec.best_of op first.now others.now) }
{
    let mut best = first;
    for x in others {
        match compare(op, x, best) {
            Ok(true) => best = x,
            Ok(false) => {}
            Err(trouble) => return Err(Refusal::Trouble(trouble)),
        }
    }
    Ok(best.copy()?)
}

fn best_among(op: CmpOp, items: &[Value]) -> Result<Value, Refusal>
    ensures { AnswersValue result (spec.best_among op items.now) }
{
    match items.get(0) {
        None => Err(Refusal::Trouble(Trouble::EMPTY_ARGUMENT)),
        Some(first) => best_of(op, first, &items[1..]),
    }
}

/// The least or the greatest of a range: its first integer, or its last.
fn best_of_range(wanted: Wanted, start: i64, stop: i64, step: i64) -> Result<Value, Trouble>
    ensures { result ≡ spec.best_among (spec.asked wanted) (range_items start step 0 (range_length start stop step)) }
{
    let count = range_len(start, stop, step);
    if count == 0 {
        return Err(Trouble::EMPTY_ARGUMENT);
    }
    if wanted.is_first(step) {
        return Ok(Value::Int(start));
    }
    Ok(Value::Int(range_item(start, stop, step, count - 1)))
}

/// The least or the greatest item of a value.
fn best_item(alloc: Global, wanted: Wanted, x: &Value) -> Result<Value, Refusal>
    ensures { AnswersValue result (spec.best_item (spec.asked wanted) (items_of x.now)) }
{
    match x {
        Value::Text(text) => {
            let items = items_of_text(alloc, text.chars())?;
            best_among(wanted.op(), items.as_slice())
        }
        Value::Tuple(items) => best_among(wanted.op(), items.as_slice()),
        Value::Range(start, stop, step) => {
            best_of_range(wanted, *start, *stop, *step).map_err(Refusal::Trouble)
        }
        _ => Err(Refusal::Trouble(Trouble::NOT_ITERABLE)),
    }
}

/// `min(..)` and `max(..)`: of two or more arguments, or of the items of one.
pub fn extreme(alloc: Global, wanted: Wanted, args: &[Value]) -> Result<Value, Refusal>
    ensures { AnswersValue result (spec.extreme (spec.asked wanted) args.now) }
{
    match args {
        [] => Err(Refusal::Trouble(Trouble::WRONG_COUNT)),
        [x] => best_item(alloc, wanted, x),
        _ => best_among(wanted.op(), args),
    }
}
