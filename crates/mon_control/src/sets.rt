//! Tool ids, and tests of sets.
ghost use Rattle.std.specs.Prelude.{◌≡◌, ◌<◌, IfSome, nat_abs};
ghost use Rattle.mon_events.specs.Sets as spec;
ghost use Rattle.mon_history.specs.Registry.{tool, first_event};

use mon_events::{ALL_EVENTS, Event, EventSet, normal_global, normal_local};

/// The tool of an id, if it is one.
pub fn tool_of(id: i64) -> Option<u8>
    ensures value { result ≡ tool id }
    ensures low { IfSome result (λ t. t < 6) }
    ensures number { IfSome result (λ t. nat_abs id ≡ t) }
{
    match id {
        0 => Some(0),
        1 => Some(1),
        2 => Some(2),
        3 => Some(3),
        4 => Some(4),
        5 => Some(5),
        _ => None,
    }
}

/// Whether a tool can ask for the set everywhere.
pub fn is_global(set: EventSet) -> bool
    ensures { result ≡ spec.is_global_set set.0 }
{
    normal_global(set).is_ok()
}

/// Whether a tool can ask for the set in a code.
pub fn is_local(set: EventSet) -> bool
    ensures { result ≡ spec.is_local_set set.0 }
{
    normal_local(set).is_ok()
}

/// The first event of a set, in the order of the bits.
pub fn first_event(set: EventSet) -> Option<Event>
    ensures { result ≡ first_event set.0 }
{
    ALL_EVENTS.iter().copied().find(|e| set.has(*e))
}
