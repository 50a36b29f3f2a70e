//! One instruction of a thread.

ghost use Rattle.std.specs.Prelude.{◌≡◌, ◌++◌, true, false, Some, option_map, IfOk, OnOk};
ghost use Rattle.mon_events.specs.declared.event.Slot.TheVariants as slot_of;
ghost use Rattle.mon_frames.specs.declared.frame.Frame.{Frame as FrameOf};
ghost use Rattle.mon_frames.specs.Views.{top_of};
ghost use Rattle.mon_machine.specs.Events.{line_after, line_events, raise_events, instruction_events};
ghost use Rattle.mon_machine.specs.State.{with_frame, moved};
ghost use Rattle.mon_machine.specs.Moves.{effect};
ghost use Rattle.mon_machine.specs.declared.mode.Ending.TheVariants.{Continues};
ghost use Rattle.mon_machine.specs.Step as spec;
ghost use Rattle.mon_interp.specs.Moving.{Stands, frames_move};
ghost use Rattle.mon_interp.specs.Asking.{asks_for, Adds};
ghost use Rattle.mon_interp.specs.Places.{standing, IsBefore, Answered};
ghost use Rattle.mon_interp.specs.Shows.{shown_in, values};

use crate::done::{Done, plain};
use crate::events::{
    Place, dest, push_ancillary, push_instruction, push_line, push_main, push_raise,
};
use crate::perform::perform;
use crate::quick::quick;
use crate::shows::{Shows, show};
use mon_code::{Code, Location, Program};
use mon_events::{Op, Slot, main_event};
use mon_frames::{Frame, Frames};
use mon_hear::asks_slot;
use mon_machine::Ending;
use mon_recorders::Happening;
use std::alloc::{AllocError, Global};

/// The line of the last executed instruction that has one.
pub fn later_line(line: Option<u32>, last: Option<u32>) -> Option<u32>
    ensures { result ≡ line_after line last }
{
    match line {
        None => last,
        Some(line) => Some(line),
    }
}

/// Tries an instruction at a location in place, in the top frame, which is one of this code; whether it is done. If it is not, the frame
/// has its line, and the instruction is still to be done.
#[tactic(auto, using(crate::proofs::Standing::one_stands, crate::proofs::Standing::stands_within))]
pub fn instruct_in_place(
    program: &Program,
    code: &Code,
    frames: &mut Frames,
    op: Op,
    location: Location,
) -> bool
    requires { Stands frames.old.calls }
    ensures yes { result ≡ true → (f : FrameOf) → top_of frames.old.calls ≡ Some f → effect program.now code.now op location.argument (spec.with_line location.line f) (with_frame frames.old (spec.with_line location.line f)) ≡ moved frames.new Continues }
    ensures no { result ≡ false → (f : FrameOf) → top_of frames.old.calls ≡ Some f → frames.new ≡ with_frame frames.old (spec.with_line location.line f) }
{
    let frame = frames.top_mut();
    frame.line = later_line(location.line, frame.line);
    quick(program, code, frame, op, location.argument)
}

/// Does an instruction in the top frame, which is one of this code; how it is done.
#[tactic(auto, using(crate::proofs::Instructing::noted_stands))]
pub fn act(
    alloc: Global,
    program: &Program,
    code: &Code,
    frames: &mut Frames,
    op: Op,
    location: Location,
) -> Result<Done, AllocError>
    requires { Stands frames.old.calls }
    ensures { IfOk result (λ done. (f : FrameOf) → top_of frames.old.calls ≡ Some f → effect program.now code.now op location.argument (spec.with_line location.line f) (with_frame frames.old (spec.with_line location.line f)) ≡ frames_move frames.new done) }
{
    if instruct_in_place(program, code, frames, op, location) {
        return Ok(plain(Ending::Continues));
    }
    perform(alloc, program, code, frames, op, location.argument)
}

/// What is known of an instruction before it is done: where it stands, the last line of its frame, and what its event
/// shows, where that occurs.
#[derive(Debug, Drop)]
pub struct Before {
    pub place: Place,
    pub last: Option<u32>,
    pub shows: Option<Shows>,
}

// What the event of an opcode with this argument shows, where the word of its location asks for that; else nothing.
fn show_asked(
    alloc: Global,
    program: &Program,
    frame: &Frame,
    word: u64,
    op: Op,
    argument: u32,
) -> Result<Option<Shows>, AllocError>
    ensures { IfOk result (λ shows. asks_for word slot_of.Main ≡ true → option_map shown_in shows ≡ values program.now op argument frame.now) }
{
    if !asks_slot(word, Slot::Main) {
        return Ok(None);
    }
    show(alloc, program, frame, op, argument)
}

/// Looks at an instruction with this argument, at a location with this word in a frame.
pub fn look(
    alloc: Global,
    program: &Program,
    frame: &Frame,
    location: u32,
    word: u64,
    op: Op,
    argument: u32,
) -> Result<Before, AllocError>
    ensures { IfOk result (λ before. IsBefore program.now op argument location word frame.now before) }
{
    Ok(Before {
        place: Place {
            code: frame.code,
            index: frame.index,
            location,
        },
        last: frame.line,
        shows: show_asked(alloc, program, frame, word, op, argument)?,
    })
}

/// Lists the events of an instruction that was done so, as far as its location's word and the global word ask for them.
pub fn list_events(
    alloc: Global,
    program: &Program,
    frames: &Frames,
    events: &mut Vec<Happening>,
    word: u64,
    global: u64,
    before: &Before,
    op: Op,
    location: Location,
    done: &Done,
) -> Result<(), AllocError>
    ensures { OnOk result ((f : FrameOf) → IsBefore program.now op location.argument before.now.place.location word f before.now → Answered op done.now.ancillary → Adds word global events.old.items events.new.items (instruction_events program.now op location.argument before.now.place.location location.line f (frames_move frames.now done.now))) }
{
    let place = before.place;
    let to = dest(frames, op, location.argument)?;
    let event = main_event(op, location.argument);
    push_line(events, word, place, location.line, before.last)?;
    push_instruction(events, word, place)?;
    push_main(events, word, place, event, to, &before.shows)?;
    push_ancillary(events, word, place, done.ancillary, &before.shows)?;
    push_raise(alloc, program, events, global, place, frames, &done.ending)
}

/// Lists the events of an instruction at a location whose word asks for no event of a slot but LINE: that one and what is
/// raised, as far as the two words ask for them.
pub fn list_plain(
    alloc: Global,
    program: &Program,
    frames: &Frames,
    events: &mut Vec<Happening>,
    word: u64,
    global: u64,
    place: Place,
    line: Option<u32>,
    last: Option<u32>,
    ending: &Ending,
) -> Result<(), AllocError>
    ensures { OnOk result (Adds word global events.old.items events.new.items (line_events (standing place) place.location line last ++ raise_events program.now (standing place) frames.now.calls ending.now)) }
{
    push_line(events, word, place, line, last)?;
    push_raise(alloc, program, events, global, place, frames, ending)
}
