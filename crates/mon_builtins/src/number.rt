ghost use Rattle.std.specs.Prelude.{◌≡◌, pos, length};
ghost use Rattle.mon_values.specs.Ranges.{range_length};
ghost use Rattle.mon_frames.specs.Items.{range_items};
ghost use Rattle.mon_values.specs.Arithmetic as arithmetic;
ghost use Rattle.mon_builtins.specs.Builtins as spec;

use mon_values::arith::integer;
use mon_values::fault::Trouble;
use mon_values::range::range_len;
use mon_values::value::Value;

/// A count as a value, or OverflowError where it leaves 64 bits.
fn counted(count: u64) -> Result<Value, Trouble>
    ensures { result ≡ arithmetic.in_range (pos count) }
{
    match i64::try_from(count) {
        Ok(n) => Ok(Value::Int(n)),
        Err(_) => Err(Trouble::OUT_OF_RANGE),
    }
}

/// How many items a range has.
fn range_count(start: i64, stop: i64, step: i64) -> u64
    ensures { result ≡ length (range_items start step 0 (range_length start stop step)) }
{
    range_len(start, stop, step)
}

/// `len(x)`
pub fn len(args: &[Value]) -> Result<Value, Trouble>
    ensures { result ≡ spec.len_of args.now }
{
    match args {
        [Value::Text(text)] => counted(text.len() as u64),
        [Value::Tuple(items)] => counted(items.len() as u64),
        [Value::Range(start, stop, step)] => counted(range_count(*start, *stop, *step)),
        [_] => Err(Trouble::WRONG_ARGUMENT),
        _ => Err(Trouble::WRONG_COUNT),
    }
}

/// A range, where its bounds and its step are integers and the step is not 0.
fn ranged(start: Option<i64>, stop: Option<i64>, step: Option<i64>) -> Result<Value, Trouble>
    ensures { result ≡ spec.ranged start stop step }
{
    match (start, stop, step) {
        (Some(_), Some(_), Some(0)) => Err(Trouble::STEP_IS_ZERO),
        (Some(start), Some(stop), Some(step)) => Ok(Value::Range(start, stop, step)),
        _ => Err(Trouble::WRONG_ARGUMENT),
    }
}

/// `range(b)`, `range(a, b)` and `range(a, b, s)`
pub fn range(args: &[Value]) -> Result<Value, Trouble>
    ensures { result ≡ spec.range_of args.now }
{
    match args {
        [b] => ranged(Some(0), integer(b), Some(1)),
        [a, b] => ranged(integer(a), integer(b), Some(1)),
        [a, b, s] => ranged(integer(a), integer(b), integer(s)),
        _ => Err(Trouble::WRONG_COUNT),
    }
}

/// `abs(x)`
pub fn abs(args: &[Value]) -> Result<Value, Trouble>
    ensures { result ≡ spec.abs_of args.now }
{
    match args {
        [x] => match integer(x) {
            Some(n) => counted(n.unsigned_abs()),
            None => Err(Trouble::WRONG_ARGUMENT),
        },
        _ => Err(Trouble::WRONG_COUNT),
    }
}
