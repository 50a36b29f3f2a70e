ghost use Rattle.std.specs.Prelude.{◌≡◌, ◌++◌, IfOk, OnOk, string_bytes, cond, codes, [], ◌&&◌, not};
ghost use Rattle.mon_events.specs.Events.{name_of};
ghost use Rattle.mon_events.specs.Sets.{has};
ghost use Rattle.mon_forms.specs.Reports as spec;

use crate::texts::write_number;
use mon_events::{ALL_EVENTS, EVENTS, Event, EventSet};
use std::alloc::AllocError;

/// Writes a name, behind a `|` where it is not the first.
fn write_joined(out: &mut String, is_first: bool, name: &str) -> Result<(), AllocError>
    ensures { OnOk result (string_bytes out.new ≡ string_bytes out.old ++ cond is_first [] (codes "|") ++ name.now) }
{
    if !is_first {
        out.push_str("|")?;
    }
    out.push_str(name)
}

/// Writes the name of an event that the set has; whether the next one that it has is the first.
fn write_member(
    out: &mut String,
    set: EventSet,
    is_first: bool,
    event: Event,
) -> Result<bool, AllocError>
    ensures next { IfOk result (λ next. next ≡ (is_first && not (has set.0 event))) }
    ensures text { OnOk result (string_bytes out.new ≡ string_bytes out.old ++ cond (has set.0 event) (cond is_first [] (codes "|") ++ name_of event) []) }
{
    if !set.has(event) {
        return Ok(is_first);
    }
    write_joined(out, is_first, event.name())?;
    Ok(false)
}

/// Writes the names of a set's events, in the order of their bits.
fn write_names(out: &mut String, set: EventSet) -> Result<(), AllocError>
    ensures { OnOk result (string_bytes out.new ≡ string_bytes out.old ++ spec.joined (spec.names_in set.0)) }
{
    let mut is_first = true;
    for event in &ALL_EVENTS {
        is_first = write_member(out, set, is_first, *event)?;
    }
    Ok(())
}

/// Writes a set: its names, `0` where it is empty, and its number where it has a bit of no event.
pub fn write_set(out: &mut String, set: EventSet) -> Result<(), AllocError>
    ensures { OnOk result (string_bytes out.new ≡ string_bytes out.old ++ spec.set_text set.0) }
{
    if set.0 == 0 {
        out.push_str("0")
    } else if set.0 >= 1 << EVENTS {
        write_number(out, u64::from(set.0))
    } else {
        write_names(out, set)
    }
}
