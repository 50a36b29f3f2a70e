//! The events of a step, heard through the words.

ghost use Rattle.std.specs.Prelude.{◌≡◌, ◌<◌, ◌++◌, ℕ, List, OnOk, IsTrue, [], length};
ghost use Rattle.mon_words.specs.Words.{cell_of};
ghost use Rattle.mon_words.specs.History.{after, cell_at};
ghost use Rattle.mon_words.specs.Told.{Told as ToldOf, Grows, Owns};
ghost use Rattle.mon_words.specs.declared.history.Mark.{Mark as MarkOf};
ghost use Rattle.mon_recorders.specs.Boards.{AreAt};
ghost use Rattle.mon_hear.specs.Words.{callback_loads, loads};
ghost use Rattle.mon_hear.specs.Hearing as spec;

use crate::act::{answer_events, record_events};
use crate::words::{load_global_due, load_words};
use mon_recorders::{Disabled, Happening, Records};
use mon_words::{Handle, form_in_place};
use sqlite_items::Items;
use std::alloc::AllocError;

/// Gives a location its least opcode, where that in place is more than the word's enabled bits need.
pub fn retire_due<H: Handle>(handle: &mut H, location: u32, word: u64)
    requires attached { IsTrue (H.told handle.old).attached }
    requires within { location < length (H.told handle.old).first.cells }
    ensures grows { Grows (H.told handle.old) (H.told handle.new) [] }
    ensures retired { spec.Retiring (H.told handle.old) (H.told handle.new) location word }
    ensures loaded { (H.told handle.new).tally.loads ≡ (H.told handle.old).tally.loads }
    ensures rest { H.rest handle.new ≡ H.rest handle.old }
{
    if (word % 256) as u8 != form_in_place(word) {
        handle.retire(location, word);
    }
}

/// Hears the events of a step at a location by the words in hand: the location's, and the global one where an event is
/// enabled by it. Each event goes to the tools for which these words and the tool's callback word let it through; of the
/// callback words those alone are loaded for which an event is enabled.
pub fn hear_asked<H: Handle>(
    handle: &mut H,
    location: u32,
    word: u64,
    global: u64,
    step: u64,
    events: &[Happening],
    records: &mut Records,
    disables: &mut Items<Disabled>,
) -> Result<(), AllocError>
    requires attached { IsTrue (H.told handle.old).attached }
    requires within { location < length (H.told handle.old).first.cells }
    requires here { AreAt location events.now }
    ensures heard { OnOk result ((a : ToldOf) → spec.InHand a (H.told handle.old) location word global events.now → spec.Heard step events.now a (H.told handle.new) records.old records.new disables.old disables.new) }
    ensures retired { OnOk result (spec.Retiring (H.told handle.old) (H.told handle.new) location word) }
    ensures loaded { (H.told handle.new).tally.loads ≡ (H.told handle.old).tally.loads ++ callback_loads word global events.now 6 }
    ensures stays { (m : List MarkOf) × Grows (H.told handle.old) (H.told handle.new) m }
    ensures rest { H.rest handle.new ≡ H.rest handle.old }
{
    let words = load_words(handle, word, global, events);
    record_events(&words, step, events, records)?;
    retire_due(handle, location, word);
    answer_events(handle, &words, step, events, disables)
}

/// Hears the events of a step at a location whose word was loaded just now: each goes to the tools for which the word,
/// the global word and the tool's callback word let it through.
pub fn hear<H: Handle>(
    handle: &mut H,
    location: u32,
    word: u64,
    step: u64,
    events: &[Happening],
    records: &mut Records,
    disables: &mut Items<Disabled>,
) -> Result<(), AllocError>
    requires attached { IsTrue (H.told handle.old).attached }
    requires within { location < length (H.told handle.old).first.cells }
    requires here { AreAt location events.now }
    requires loaded { cell_of word ≡ cell_at (after (H.told handle.old).first (H.told handle.old).seen) location }
    ensures heard { OnOk result (spec.Heard step events.now (H.told handle.old) (H.told handle.new) records.old records.new disables.old disables.new) }
    ensures retired { OnOk result (spec.Retiring (H.told handle.old) (H.told handle.new) location word) }
    ensures loaded { (H.told handle.new).tally.loads ≡ (H.told handle.old).tally.loads ++ loads word (after (H.told handle.old).first (H.told handle.old).seen).global events.now }
    ensures stays { (m : List MarkOf) × Grows (H.told handle.old) (H.told handle.new) m }
    ensures rest { H.rest handle.new ≡ H.rest handle.old }
{
    let global = load_global_due(handle, events);
    hear_asked(
        handle, location, word, global, step, events, records, disables,
    )
}

/// One step's hearing: the load of its location's word, and what is heard by it.
pub fn hear_step<H: Handle>(
    handle: &mut H,
    location: u32,
    step: u64,
    events: &[Happening],
    records: &mut Records,
    disables: &mut Items<Disabled>,
) -> Result<(), AllocError>
    requires attached { IsTrue (H.told handle.old).attached }
    requires owns { Owns (H.told handle.old) }
    requires within { location < length (H.told handle.old).first.cells }
    requires here { AreAt location events.now }
    ensures heard { OnOk result (spec.StepHeard step location events.now (H.told handle.old) (H.told handle.new) records.old records.new disables.old disables.new) }
    ensures stays { (m : List MarkOf) × Grows (H.told handle.old) (H.told handle.new) m }
    ensures rest { H.rest handle.new ≡ H.rest handle.old }
{
    let word = handle.load(location);
    hear(handle, location, word, step, events, records, disables)
}
