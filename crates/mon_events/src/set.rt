ghost use Rattle.std.specs.Prelude.{◌≡◌, ◌<◌};
ghost use Rattle.mon_events.specs.Sets as spec;

use crate::event::{ALL_EVENTS, EVENTS, Event};

/// A set of events, by their bits. Bits from [`EVENTS`] on are of no event.
#[derive(Clone, Copy, Debug, PartialEq, Eq)]
pub struct EventSet(pub u32);

/// A set that a call refuses, as it was given.
#[derive(Clone, Copy, Debug, PartialEq, Eq)]
pub struct BadEvent(pub EventSet);

const KNOWN: u32 = (1 << EVENTS) - 1;

/// C_RAISE and C_RETURN.
const ANCILLARY: u32 = 12;

/// The local events.
const LOCAL: u32 = 75747;

/// The set without C_RAISE and C_RETURN, where it has CALL and both.
pub fn normal(set: EventSet) -> EventSet
    ensures { result.0 ≡ spec.normal_set set.0 }
{
    if set.has(Event::Call) && set.has(Event::CRaise) && set.has(Event::CReturn) {
        EventSet(set.0 & !ANCILLARY)
    } else {
        set
    }
}

/// The normal form of a set that a tool asks for everywhere. BadEvent: it then has an unknown bit, C_RAISE or C_RETURN.
pub fn normal_global(set: EventSet) -> Result<EventSet, BadEvent>
    ensures { result ≡ spec.normal_global set }
{
    let normal = normal(set);
    if normal.0 & (KNOWN - ANCILLARY) == normal.0 {
        Ok(normal)
    } else {
        Err(BadEvent(set))
    }
}

/// The normal form of a set that a tool asks for in one code. BadEvent: it then has a bit that is not of a local event.
pub fn normal_local(set: EventSet) -> Result<EventSet, BadEvent>
    ensures { result ≡ spec.normal_local set }
{
    let normal = normal(set);
    if normal.0 & LOCAL == normal.0 {
        Ok(normal)
    } else {
        Err(BadEvent(set))
    }
}

/// The one known event that the set is.
pub fn single(set: EventSet) -> Option<Event>
    ensures { result ≡ spec.single set.0 }
{
    ALL_EVENTS
        .iter()
        .copied()
        .find(|e| set.0 == EventSet::only(*e).0)
}

impl EventSet {
    ghost use Rattle.std.specs.Prelude.{◌≡◌, ◌^◌};
    ghost use Rattle.mon_events.specs.Events.{bit};
    ghost use Rattle.mon_events.specs.Sets as spec;

    /// The set of one event.
    pub fn only(event: Event) -> EventSet
        ensures { result.0 ≡ 2 ^ bit event }
    {
        EventSet(1 << event.number())
    }

    /// Whether the set has an event.
    pub fn has(self, event: Event) -> bool
        ensures { result ≡ spec.has self.0 event }
    {
        (self.0 >> event.number()) % 2 == 1
    }

    /// The set with an event.
    pub fn with(self, event: Event) -> EventSet
        ensures { result.0 ≡ spec.with_event self.0 event }
    {
        EventSet(self.0 | EventSet::only(event).0)
    }
}
