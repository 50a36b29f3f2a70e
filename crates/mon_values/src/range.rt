ghost use Rattle.std.specs.Prelude.{◌≡◌, ◌<◌};
ghost use Rattle.mon_values.specs.Ranges as spec;

use std::cmp::Ordering;

/// How many integers a range has; none for a step of 0.
pub fn range_len(start: i64, stop: i64, step: i64) -> u64
    ensures { result ≡ spec.range_length start stop step }
{
    let span = match step.cmp(&0) {
        Ordering::Greater if start < stop => stop.abs_diff(start),
        Ordering::Less if stop < start => start.abs_diff(stop),
        _ => return 0,
    };
    span.div_ceil(step.unsigned_abs())
}

/// Whether an integer stands between start and stop, in the step's direction.
fn is_between(start: i64, stop: i64, step: i64, z: i64) -> bool
    ensures { result ≡ spec.is_between start stop step z }
{
    match step.cmp(&0) {
        Ordering::Greater => start <= z && z < stop,
        Ordering::Less => z <= start && stop < z,
        Ordering::Equal => false,
    }
}

/// Whether a range has this integer.
pub fn in_range(start: i64, stop: i64, step: i64, z: i64) -> bool
    ensures { result ≡ spec.is_range_item start stop step z }
{
    if !is_between(start, stop, step, z) {
        return false;
    }
    z.abs_diff(start) % step.unsigned_abs() == 0
}

/// The integer at a place of a range, from 0.
pub fn range_item(start: i64, stop: i64, step: i64, place: u64) -> i64
    requires { place < spec.range_length start stop step }
    ensures { result ≡ spec.range_item start step place }
{
    start.wrapping_add(place.cast_signed().wrapping_mul(step))
}
