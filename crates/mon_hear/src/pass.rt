//! Steps of which nothing is heard, and steps without a location.

ghost use Rattle.std.specs.Prelude.{◌≡◌, ◌<◌, ◌++◌, ◌∷◌, ℕ, List, OnOk, IsTrue, [], length, None, false};
ghost use Rattle.mon_words.specs.Words.{cell_of, Quiet};
ghost use Rattle.mon_words.specs.History.{after, cell_at};
ghost use Rattle.mon_words.specs.Told.{Told as ToldOf, Grows, Owns};
ghost use Rattle.mon_words.specs.declared.tally.Load.{Load};
ghost use Rattle.mon_recorders.specs.declared.happening.Happening.{Happening as HappeningOf};
ghost use Rattle.mon_recorders.specs.declared.record.Record.{Record as RecordOf};
ghost use Rattle.mon_recorders.specs.declared.record.Disabled.{Disabled as DisabledOf};
ghost use Rattle.mon_recorders.specs.Boards.{AreAt};
ghost use Rattle.mon_hear.specs.Words.{loads, callback_loads, any_global, globals as globals_of};
ghost use Rattle.mon_hear.specs.Hearing as spec;

use crate::act::record_events;
use crate::step::{hear, retire_due};
use crate::words::{load_global, load_global_due, load_words};
use mon_recorders::{Disabled, Happening, Records};
use mon_words::{Handle, is_quiet};
use sqlite_items::Items;
use std::alloc::AllocError;

/// Loads the word of a step's location. Where none of its events is enabled there, nothing is heard of the step but what
/// the global word lets through, and there is no answer; the word was loaded once, and no other.
pub fn pass_step<H: Handle>(handle: &mut H, location: u32) -> Option<u64>
    requires attached { IsTrue (H.told handle.old).attached }
    requires owns { Owns (H.told handle.old) }
    requires within { location < length (H.told handle.old).first.cells }
    ensures passed { result ≡ None → (i : ℕ) (events : List HappeningOf) (records : List RecordOf) (disables : List DisabledOf) → AreAt location events → any_global events ≡ false → spec.StepHeard i location events (H.told handle.old) (H.told handle.new) records records disables disables }
    ensures once { result ≡ None → spec.LoadsOnce (H.told handle.old) (H.told handle.new) location }
    ensures word { (word : ℕ) → spec.IsLoaded result word → cell_of word ≡ cell_at (after (H.told handle.new).first (H.told handle.new).seen) location }
    ensures rest { H.rest handle.new ≡ H.rest handle.old }
{
    let word = handle.load(location);
    if !is_quiet(word) {
        return Some(word);
    }
    retire_due(handle, location, word);
    None
}

/// Loads the global word for a step that has no location. Where it enables nothing, nothing is heard of the step, and there
/// is no answer; no other word was loaded.
pub fn pass_unwinding<H: Handle>(handle: &mut H) -> Option<u64>
    requires attached { IsTrue (H.told handle.old).attached }
    requires owns { Owns (H.told handle.old) }
    ensures passed { result ≡ None → (i : ℕ) (events : List HappeningOf) (records : List RecordOf) → spec.AreGlobal events → spec.UnwindingHeard i events (H.told handle.old) (H.told handle.new) records records }
    ensures word { (word : ℕ) → spec.IsLoaded result word → word ≡ (after (H.told handle.new).first (H.told handle.new).seen).global }
    ensures loaded { (H.told handle.new).tally.loads ≡ (H.told handle.old).tally.loads ++ Load.Global ∷ [] }
    ensures grows { Grows (H.told handle.old) (H.told handle.new) [] }
    ensures same { (H.told handle.new).tally.retirements ≡ (H.told handle.old).tally.retirements }
    ensures rest { H.rest handle.new ≡ H.rest handle.old }
{
    let global = load_global(handle);
    if global == 0 { None } else { Some(global) }
}

/// Hears the events of a step that has no location, by the global word in hand.
pub fn hear_unwinding_asked<H: Handle>(
    handle: &mut H,
    global: u64,
    step: u64,
    events: &[Happening],
    records: &mut Records,
) -> Result<(), AllocError>
    requires attached { IsTrue (H.told handle.old).attached }
    requires global { spec.AreGlobal events.now }
    ensures heard { OnOk result ((a : ToldOf) → Owns a → Grows a (H.told handle.old) [] → (IsTrue (any_global events.now) → global ≡ (after a.first a.seen).global) → spec.UnwindingHeard step events.now a (H.told handle.new) records.old records.new) }
    ensures loaded { (H.told handle.new).tally.loads ≡ (H.told handle.old).tally.loads ++ callback_loads 0 global events.now 6 }
    ensures grows { Grows (H.told handle.old) (H.told handle.new) [] }
    ensures same { (H.told handle.new).tally.retirements ≡ (H.told handle.old).tally.retirements }
    ensures rest { H.rest handle.new ≡ H.rest handle.old }
{
    let words = load_words(handle, 0, global, events);
    record_events(&words, step, events, records)
}

/// Hears the events of a step that has no location. They are enabled by the global word alone.
pub fn hear_unwinding<H: Handle>(
    handle: &mut H,
    step: u64,
    events: &[Happening],
    records: &mut Records,
) -> Result<(), AllocError>
    requires attached { IsTrue (H.told handle.old).attached }
    requires owns { Owns (H.told handle.old) }
    requires global { spec.AreGlobal events.now }
    ensures heard { OnOk result (spec.UnwindingHeard step events.now (H.told handle.old) (H.told handle.new) records.old records.new) }
    ensures loaded { (H.told handle.new).tally.loads ≡ (H.told handle.old).tally.loads ++ loads 0 (after (H.told handle.old).first (H.told handle.old).seen).global events.now }
    ensures grows { Grows (H.told handle.old) (H.told handle.new) [] }
    ensures rest { H.rest handle.new ≡ H.rest handle.old }
{
    let global = load_global_due(handle, events);
    hear_unwinding_asked(handle, global, step, events, records)
}

/// Hears a step at a location where nothing is enabled, by its global events.
pub fn hear_quiet<H: Handle>(
    handle: &mut H,
    location: u32,
    word: u64,
    step: u64,
    globals: &[Happening],
    records: &mut Records,
    disables: &mut Items<Disabled>,
) -> Result<(), AllocError>
    requires attached { IsTrue (H.told handle.old).attached }
    requires within { location < length (H.told handle.old).first.cells }
    requires loaded { cell_of word ≡ cell_at (after (H.told handle.old).first (H.told handle.old).seen) location }
    requires quiet { Quiet (cell_of word) }
    requires global { spec.AreGlobal globals.now }
    ensures heard { OnOk result ((events : List HappeningOf) → AreAt location events → globals_of events ≡ globals.now → spec.Heard step events (H.told handle.old) (H.told handle.new) records.old records.new disables.old disables.new) }
    ensures retired { OnOk result (spec.Retiring (H.told handle.old) (H.told handle.new) location word) }
    ensures rest { H.rest handle.new ≡ H.rest handle.old }
{
    hear(handle, location, word, step, globals, records, disables)
}
