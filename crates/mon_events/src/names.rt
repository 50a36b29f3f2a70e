ghost use Rattle.std.specs.Prelude.{◌≡◌, ◌<◌, MatchOption, option_map, ◌∷◌, [], ◌==◌, length};
ghost use Rattle.std.specs.List.{slice_split};
ghost use Rattle.mon_events.specs.Names as spec;

use crate::event::{ALL_EVENTS, Event};
use crate::set::EventSet;

/// A text that is neither names of events nor a set in digits.
#[derive(Clone, Copy, Debug, PartialEq, Eq)]
pub struct UnknownName;

/// What stands before the first `at`, and what stands behind it.
fn split_once(text: &str, at: char) -> Option<(&str, &str)>
    requires { at < 128 }
    ensures { MatchOption result
        (slice_split (λ b. b == at) text.now ≡ text.now ∷ [])
        (λ x. (slice_split (λ b. b == at) text.now ≡ x.0.now ∷ slice_split (λ b. b == at) x.1.now) × (length x.1.now < length text.now)) }
{
    text.split_once(at)
}

/// The event of a name of `sys.monitoring.events`.
fn event_named(name: &str) -> Option<Event>
    ensures { result ≡ spec.event_named name.now }
{
    ALL_EVENTS.iter().copied().find(|e| e.name() == name)
}

/// The set of names that `|` joins.
#[tactic(auto, using(crate::proofs::Texts::no_names))]
fn set_of_joined(words: &str) -> Option<EventSet>
    ensures { option_map (λ set. set.0) result ≡ spec.set_of_joined words.now }
{
    let mut set = EventSet(0);
    let mut rest = words;
    while let Some((name, more)) = split_once(rest, '|') {
        set = set.with(event_named(name)?);
        rest = more;
    }
    Some(set.with(event_named(rest)?))
}

/// The set of one or more decimal digits.
fn set_of_digits(digits: &[u8]) -> Option<EventSet>
    ensures { option_map (λ set. set.0) result ≡ spec.set_of_digits digits.now }
{
    if digits.is_empty() {
        return None;
    }
    let mut value: u64 = 0;
    for c in digits {
        if !c.is_ascii_digit() {
            return None;
        }
        value = 10 * value + u64::from(*c - b'0');
        if value > u64::from(u32::MAX) {
            return None;
        }
    }
    Some(EventSet(value as u32))
}

/// The set of event names that `|` joins, or of one or more decimal digits of a value up to 4,294,967,295. UnknownName:
/// the text is neither.
pub fn set_of_names(words: &str) -> Result<EventSet, UnknownName>
    ensures { result ≡ spec.set_of_names words.now }
{
    if let Some(set) = set_of_digits(words.as_bytes()) {
        return Ok(set);
    }
    set_of_joined(words).ok_or(UnknownName)
}
