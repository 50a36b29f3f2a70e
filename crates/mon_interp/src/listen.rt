//! The events of a step, listed and heard as far as the words ask for them.

ghost use Rattle.std.specs.Prelude.{◌≡◌, ◌<◌, ◌++◌, ◌∷◌, [], ℕ, List, length, cond, false, IsTrue, OnOk};
ghost use Rattle.std.specs.Result.{is_err};
ghost use Rattle.mon_words.specs.Words.{cell_of};
ghost use Rattle.mon_words.specs.History.{after, cell_at};
ghost use Rattle.mon_words.specs.Told.{Told as ToldOf, Grows};
ghost use Rattle.mon_words.specs.declared.history.Mark.{Mark as MarkOf};
ghost use Rattle.mon_words.specs.declared.tally.Load.{Load};
ghost use Rattle.mon_frames.specs.declared.frame.Frame.{Frame as FrameOf};
ghost use Rattle.mon_hear.specs.Words.{callback_loads, IsAskedPart};
ghost use Rattle.mon_hear.specs.Hearing.{Heard, Retiring};
ghost use Rattle.mon_machine.specs.Events.{line_events};
ghost use Rattle.mon_interp.specs.Moving.{raises};
ghost use Rattle.mon_interp.specs.Places.{standing};

use crate::events::{Place, push_line};
use mon_events::Slot;
use mon_frames::Frames;
use mon_hear::{asks_slot, hear_asked, load_global, retire_due};
use mon_machine::Ending;
use mon_recorders::{Disabled, Happening, Records};
use mon_values::value::{Exc, Value};
use mon_words::Handle;
use sqlite_items::Items;
use std::alloc::AllocError;

// Whether LINE occurs, where a location has this line and its frame had that one last, and the word asks for it.
fn is_line_asked(word: u64, line: Option<u32>, last: Option<u32>) -> bool
    ensures { result ≡ false → (global location : ℕ) (f : FrameOf) → IsAskedPart word global [] (line_events f location line last) }
{
    asks_slot(word, Slot::Line) && line.is_some() && line != last
}

/// Hears an instruction that has no event but LINE, by the word of its location.
pub fn hear_line<H: Handle>(
    handle: &mut H,
    place: Place,
    word: u64,
    step: u64,
    line: Option<u32>,
    last: Option<u32>,
    events: &mut Vec<Happening>,
    records: &mut Records,
    disables: &mut Items<Disabled>,
) -> Result<(), AllocError>
    requires attached { IsTrue (H.told handle.old).attached }
    requires within { place.location < length (H.told handle.old).first.cells }
    requires loaded { cell_of word ≡ cell_at (after (H.told handle.old).first (H.told handle.old).seen) place.location }
    ensures heard { OnOk result (Heard step (line_events (standing place) place.location line last) (H.told handle.old) (H.told handle.new) records.old records.new disables.old disables.new) }
    ensures retired { OnOk result (Retiring (H.told handle.old) (H.told handle.new) place.location word) }
    ensures loads { OnOk result ((H.told handle.new).tally.loads ≡ (H.told handle.old).tally.loads ++ callback_loads word 0 (line_events (standing place) place.location line last) 6) }
    ensures stays { (m : List MarkOf) × Grows (H.told handle.old) (H.told handle.new) m }
    ensures rest { H.rest handle.new ≡ H.rest handle.old }
{
    if !is_line_asked(word, line, last) {
        retire_due(handle, place.location, word);
        return Ok(());
    }
    events.clear();
    push_line(events, word, place, line, last)?;
    hear_asked(
        handle,
        place.location,
        word,
        0,
        step,
        events.as_slice(),
        records,
        disables,
    )
}

// The global word, where it is due; else 0.
fn load_global_if<H: Handle>(handle: &mut H, is_due: bool) -> u64
    requires attached { IsTrue (H.told handle.old).attached }
    ensures value { IsTrue is_due → result ≡ (after (H.told handle.old).first (H.told handle.old).seen).global }
    ensures grows { Grows (H.told handle.old) (H.told handle.new) [] }
    ensures same { (H.told handle.new).tally.retirements ≡ (H.told handle.old).tally.retirements }
    ensures loaded { (H.told handle.new).tally.loads ≡ (H.told handle.old).tally.loads ++ cond is_due (Load.Global ∷ []) [] }
    ensures rest { H.rest handle.new ≡ H.rest handle.old }
{
    if is_due { load_global(handle) } else { 0 }
}

// Whether an instruction that ended so, with these frames, raises: in its own frame, or in a generator's.
#[tactic(auto, using(crate::proofs::Standing::some_call, crate::proofs::Standing::no_call))]
fn is_raising(frames: &Frames, ending: &Ending) -> bool
    ensures { result ≡ raises frames.now.calls ending.now }
{
    match ending {
        Ending::Raises(_) | Ending::Reraises(_) => true,
        Ending::ThrowsIn(_) => frames.depth() > 0,
        Ending::Continues
        | Ending::Returns(_)
        | Ending::Yields(_)
        | Ending::Parks
        | Ending::Misses => false,
    }
}

/// The global word, where an instruction that ended so raises; else 0.
pub fn load_raised<H: Handle>(handle: &mut H, frames: &Frames, ending: &Ending) -> u64
    requires attached { IsTrue (H.told handle.old).attached }
    ensures value { IsTrue (raises frames.now.calls ending.now) → result ≡ (after (H.told handle.old).first (H.told handle.old).seen).global }
    ensures grows { Grows (H.told handle.old) (H.told handle.new) [] }
    ensures same { (H.told handle.new).tally.retirements ≡ (H.told handle.old).tally.retirements }
    ensures loaded { (H.told handle.new).tally.loads ≡ (H.told handle.old).tally.loads ++ cond (raises frames.now.calls ending.now) (Load.Global ∷ []) [] }
    ensures rest { H.rest handle.new ≡ H.rest handle.old }
{
    load_global_if(handle, is_raising(frames, ending))
}

/// The global word, where a call is answered by an exception; else 0.
pub fn load_answered<H: Handle>(handle: &mut H, answer: &Result<Value, Exc>) -> u64
    requires attached { IsTrue (H.told handle.old).attached }
    ensures value { IsTrue (is_err answer.now) → result ≡ (after (H.told handle.old).first (H.told handle.old).seen).global }
    ensures grows { Grows (H.told handle.old) (H.told handle.new) [] }
    ensures same { (H.told handle.new).tally.retirements ≡ (H.told handle.old).tally.retirements }
    ensures loaded { (H.told handle.new).tally.loads ≡ (H.told handle.old).tally.loads ++ cond (is_err answer.now) (Load.Global ∷ []) [] }
    ensures rest { H.rest handle.new ≡ H.rest handle.old }
{
    load_global_if(handle, answer.is_err())
}
