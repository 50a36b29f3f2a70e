//! The events of a step.

ghost use Rattle.std.specs.Prelude.{◌≡◌, ◌*◌, ◌<◌, ◌++◌, ◌∷◌, [], ℕ, true, Option, Some, option_map, OnOk, IfOk};
ghost use Rattle.mon_events.specs.declared.event.Event.TheVariants as event_of;
ghost use Rattle.mon_events.specs.declared.event.Slot.TheVariants as slot_of;
ghost use Rattle.mon_values.specs.declared.value.Value.{Exc as RaisedValue};
ghost use Rattle.mon_recorders.specs.declared.happening.Kind.TheVariants.{Local, Global as GlobalKind};
ghost use Rattle.mon_machine.specs.Events as spec;
ghost use Rattle.mon_machine.specs.Events.{Shown as ShownOf};
ghost use Rattle.mon_interp.specs.Asking.{asks_for, Adds};
ghost use Rattle.mon_interp.specs.Places.{standing, IsAt, ShowsFor};
ghost use Rattle.mon_interp.specs.Shows.{shown_in, going, dest as dest_of};

use crate::shows::{Shows, show_answer, show_exc};
use mon_code::Program;
use mon_events::{Event, Op, Slot};
use mon_frames::{Frame, Frames};
use mon_hear::{asks_global, asks_slot};
use mon_machine::{Answer, Ending};
use mon_recorders::{Cut, Happening, Kind};
use mon_values::value::Exc;
use std::alloc::{AllocError, Global};

/// Where an instruction stands: the code and the index of its frame, and the number of its location.
#[derive(Clone, Copy, Debug)]
pub struct Place {
    pub code: u16,
    pub index: u32,
    pub location: u32,
}

/// The offset of an index. An index of which it has no `u32` is that of no program; it counts as want of memory.
fn offset_of(index: u32) -> Result<u32, AllocError>
    ensures { IfOk result (λ offset. offset ≡ 2 * index) }
{
    index.checked_mul(2).ok_or(AllocError)
}

// An event at a place, with a line or its offset.
fn happens(place: Place, event: Event, kind: Kind, at: u32) -> Result<Happening, AllocError>
    ensures { IfOk result (λ h. h ≡ spec.happens event kind (standing place) at) }
{
    Ok(Happening {
        event,
        kind,
        code: place.code,
        at,
        offset: offset_of(place.index)?,
        dest: 0,
        first: Cut::absent(),
        second: Cut::absent(),
    })
}

// An event with its own offset, which goes to an offset and shows values.
fn happens_with(
    place: Place,
    event: Event,
    kind: Kind,
    dest: u32,
    shows: &Shows,
) -> Result<Happening, AllocError>
    ensures { IfOk result (λ h. h ≡ spec.showing (going dest (shown_in shows.now)) (spec.happens event kind (standing place) (2 * place.index))) }
{
    let mut happening = happens(place, event, kind, offset_of(place.index)?)?;
    happening.dest = dest;
    happening.first = shows.first.copy()?;
    happening.second = shows.second.copy()?;
    Ok(happening)
}

/// LINE, where the location has a line that differs from the frame's last one.
pub fn push_line(
    events: &mut Vec<Happening>,
    word: u64,
    place: Place,
    line: Option<u32>,
    last: Option<u32>,
) -> Result<(), AllocError>
    ensures { OnOk result ((global : ℕ) → Adds word global events.old.items events.new.items (spec.line_events (standing place) place.location line last)) }
{
    if !asks_slot(word, Slot::Line) {
        return Ok(());
    }
    let kind = Kind::Local(place.location, Slot::Line);
    match (line, last) {
        (None, _) => Ok(()),
        (Some(line), None) => {
            events.push(happens(place, Event::Line, kind, line)?)?;
            Ok(())
        }
        (Some(line), Some(last)) => {
            if line == last {
                return Ok(());
            }
            events.push(happens(place, Event::Line, kind, line)?)?;
            Ok(())
        }
    }
}

/// INSTRUCTION
pub fn push_instruction(
    events: &mut Vec<Happening>,
    word: u64,
    place: Place,
) -> Result<(), AllocError>
    ensures { OnOk result ((global : ℕ) → Adds word global events.old.items events.new.items (spec.happens event_of.Instruction (Local place.location slot_of.Instruction) (standing place) (2 * place.index) ∷ [])) }
{
    if !asks_slot(word, Slot::Instruction) {
        return Ok(());
    }
    let kind = Kind::Local(place.location, Slot::Instruction);
    let at = offset_of(place.index)?;
    events.push(happens(place, Event::Instruction, kind, at)?)?;
    Ok(())
}

/// The event of the MAIN slot, where it occurs. What it shows is known where the word asks for it.
pub fn push_main(
    events: &mut Vec<Happening>,
    word: u64,
    place: Place,
    event: Option<Event>,
    to: u32,
    shows: &Option<Shows>,
) -> Result<(), AllocError>
    ensures { OnOk result ((global : ℕ) (s : Option ShownOf) → (asks_for word slot_of.Main ≡ true → option_map shown_in shows.now ≡ s) → Adds word global events.old.items events.new.items (spec.slot_events (spec.in_main event (option_map (going to) s)) place.location (standing place))) }
{
    if !asks_slot(word, Slot::Main) {
        return Ok(());
    }
    match (event, shows) {
        (Some(event), Some(shows)) => {
            let kind = Kind::Local(place.location, Slot::Main);
            events.push(happens_with(place, event, kind, to, shows)?)?;
            Ok(())
        }
        _ => Ok(()),
    }
}

/// C_RETURN or C_RAISE, where a builtin or a class was called.
pub fn push_ancillary(
    events: &mut Vec<Happening>,
    word: u64,
    place: Place,
    event: Option<Event>,
    shows: &Option<Shows>,
) -> Result<(), AllocError>
    ensures { OnOk result ((global : ℕ) (s : ShownOf) → (asks_for word slot_of.Main ≡ true → ShowsFor event shows.now s) → Adds word global events.old.items events.new.items (spec.ancillary_events event s place.location (standing place))) }
{
    if !asks_slot(word, Slot::Main) {
        return Ok(());
    }
    match (event, shows) {
        (Some(event), Some(shows)) => {
            let kind = Kind::Ancillary(place.location);
            events.push(happens_with(place, event, kind, 0, shows)?)?;
            Ok(())
        }
        _ => Ok(()),
    }
}

/// An event of an exception.
pub fn push_exception(
    alloc: Global,
    program: &Program,
    events: &mut Vec<Happening>,
    global: u64,
    place: Place,
    event: Event,
    exc: &Exc,
) -> Result<(), AllocError>
    ensures { OnOk result ((word : ℕ) → Adds word global events.old.items events.new.items (spec.of_exception program.now event exc.now (standing place) ∷ [])) }
{
    if !asks_global(global, event) {
        return Ok(());
    }
    let shows = show_exc(alloc, program, exc)?;
    events.push(happens_with(place, event, Kind::Global, 0, &shows)?)?;
    Ok(())
}

/// The place of a frame that has no instruction to do.
pub fn place_of(frame: &Frame) -> Place
    ensures { IsAt result frame.now }
{
    Place {
        code: frame.code,
        index: frame.index,
        location: 0,
    }
}

// PY_THROW and RAISE in the innermost frame, if there is one.
fn push_throw(
    alloc: Global,
    program: &Program,
    events: &mut Vec<Happening>,
    global: u64,
    frames: &Frames,
    exc: &Exc,
) -> Result<(), AllocError>
    ensures { OnOk result ((word : ℕ) → Adds word global events.old.items events.new.items (spec.throw_events program.now exc.now frames.now.calls)) }
{
    if frames.depth() == 0 {
        return Ok(());
    }
    let place = place_of(frames.top());
    push_exception(alloc, program, events, global, place, Event::PyThrow, exc)?;
    push_exception(alloc, program, events, global, place, Event::Raise, exc)
}

/// RAISE or RERAISE, where an exception is raised; PY_THROW and RAISE in the innermost frame, into which one is thrown.
pub fn push_raise(
    alloc: Global,
    program: &Program,
    events: &mut Vec<Happening>,
    global: u64,
    place: Place,
    frames: &Frames,
    ending: &Ending,
) -> Result<(), AllocError>
    ensures { OnOk result ((word : ℕ) → Adds word global events.old.items events.new.items (spec.raise_events program.now (standing place) frames.now.calls ending.now)) }
{
    match ending {
        Ending::Raises(exc) => {
            push_exception(alloc, program, events, global, place, Event::Raise, exc)
        }
        Ending::Reraises(exc) => {
            push_exception(alloc, program, events, global, place, Event::Reraise, exc)
        }
        Ending::ThrowsIn(exc) => push_throw(alloc, program, events, global, frames, exc),
        Ending::Continues
        | Ending::Returns(_)
        | Ending::Yields(_)
        | Ending::Parks
        | Ending::Misses => Ok(()),
    }
}

// C_RETURN or C_RAISE of a call, with the builtin and the generator.
fn push_end(
    alloc: Global,
    program: &Program,
    events: &mut Vec<Happening>,
    word: u64,
    place: Place,
    event: Event,
    answer: &Answer,
) -> Result<(), AllocError>
    ensures { OnOk result ((global : ℕ) → Adds word global events.old.items events.new.items (spec.ancillary_events (Some event) (spec.of_answer program.now answer.now) place.location (standing place))) }
{
    if !asks_slot(word, Slot::Main) {
        return Ok(());
    }
    let shows = show_answer(alloc, program, answer)?;
    let kind = Kind::Ancillary(place.location);
    events.push(happens_with(place, event, kind, 0, &shows)?)?;
    Ok(())
}

/// The events at the end of a call that has this answer: C_RETURN, or C_RAISE and RAISE.
pub fn push_answer(
    alloc: Global,
    program: &Program,
    events: &mut Vec<Happening>,
    word: u64,
    global: u64,
    place: Place,
    answer: &Answer,
) -> Result<(), AllocError>
    ensures { OnOk result (Adds word global events.old.items events.new.items (spec.answer_events program.now answer.now place.location (standing place) answer.now.result)) }
{
    match &answer.result {
        Ok(_) => push_end(alloc, program, events, word, place, Event::CReturn, answer),
        Err(exc) => {
            push_end(alloc, program, events, word, place, Event::CRaise, answer)?;
            push_exception(alloc, program, events, global, place, Event::Raise, exc)
        }
    }
}

// The index at which the innermost frame stands.
fn top_index(frames: &Frames) -> u32
    ensures { result ≡ spec.index_in frames.now.calls }
{
    if frames.depth() == 0 {
        return 0;
    }
    frames.top().index
}

/// The offset that the event of an opcode with this argument goes to.
pub fn dest(frames: &Frames, op: Op, argument: u32) -> Result<u32, AllocError>
    ensures { IfOk result (λ to. to ≡ dest_of op argument (spec.index_in frames.now.calls)) }
{
    match op {
        Op::JumpForward | Op::JumpBackward => offset_of(argument),
        Op::PopJumpIfFalse | Op::PopJumpIfTrue | Op::PopJumpIfDone => offset_of(top_index(frames)),
        _ => Ok(0),
    }
}
