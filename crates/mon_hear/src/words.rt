//! The words by which a step is heard, each loaded at most once.

ghost use Rattle.std.specs.Prelude.{◌≡◌, ◌<◌, ◌+◌, ◌++◌, ◌∷◌, ◌&&◌, ◌==◌, ◌*◌, ◌%◌, ◌^◌, bit_and, bit_or, cond, not, nat_lt, false, ℕ, List, IsTrue, [], length, slice_index};
ghost use Rattle.mon_events.specs.Events.{rank, slot_number};
ghost use Rattle.mon_words.specs.Words.{cell_of, enabled_in, is_bit, is_enabled, is_wanted, is_called, is_once};
ghost use Rattle.mon_words.specs.History.{after};
ghost use Rattle.mon_words.specs.Told.{Told as ToldOf, Grows};
ghost use Rattle.mon_words.specs.declared.tally.Load.{Load};
ghost use Rattle.mon_recorders.specs.Happenings.{for_tools};
ghost use Rattle.mon_recorders.specs.Boards.{is_enabled_by, let_through, AreReadBy};
ghost use Rattle.mon_recorders.specs.declared.happening.Happening.{Happening as HappeningOf};
ghost use Rattle.mon_words.specs.declared.history.Board.{Board as BoardOf};
ghost use Rattle.mon_hear.specs.Hearing.{Unheard};
ghost use Rattle.mon_hear.specs.Words as spec;

use mon_events::{Event, Slot, is_local};
use mon_recorders::{Happening, Kind};
use mon_words::{Handle, has_bit, is_quiet};

/// The words of a step: its location's, the global one, and the callback words.
#[derive(Clone, Copy)]
pub struct Words {
    pub word: u64,
    pub global: u64,
    pub callbacks: [u64; 6],
}

// Six bits of a word, from a place on.
fn six_bits(word: u64, from: u8) -> u8
    requires { from < 58 }
    ensures { (tool : ℕ) → tool < 6 → is_bit result tool ≡ is_bit word (from + tool) }
{
    ((word >> from) % 64) as u8
}

// The tools for which an event of a slot is enabled by a word, as bits 0 to 5.
fn slot_tools(word: u64, slot: Slot) -> u8
    ensures { (tool : ℕ) → tool < 6 → is_bit result tool ≡ is_enabled (cell_of word) slot tool }
{
    let enabled = ((word >> 16) % 16_777_216) & (word >> 40);
    six_bits(enabled, 6 * slot.number())
}

// The tools for which the global word asks for an event that is global alone, as bits 0 to 5.
fn global_tools(word: u64, event: Event) -> u8
    ensures { (tool : ℕ) → tool < 6 → is_bit result tool ≡ is_wanted word (rank event) tool }
{
    match event.rank() {
        None => 0,
        Some(rank) => six_bits(word, 6 * rank),
    }
}

// Whether a callback word has a policy for an event.
fn called(word: u64, event: Event) -> bool
    ensures { result ≡ is_called word event }
{
    let bit = 2 * event.number();
    has_bit(word, bit) != has_bit(word, bit + 1)
}

// Whether a callback word answers DISABLE to an event.
fn once(word: u64, event: Event) -> bool
    ensures { result ≡ is_once word event }
{
    let bit = 2 * event.number();
    is_local(event) && !has_bit(word, bit) && has_bit(word, bit + 1)
}

// The tools for which an event is enabled by these words, as bits 0 to 5.
fn enabled_tools(word: u64, global: u64, event: &Happening) -> u8
    ensures { (tool : ℕ) → tool < 6 → is_bit result tool ≡ is_enabled_by (λ l. cell_of word) global event.now.kind tool event.now.event }
{
    match event.kind {
        Kind::Local(_, slot) => slot_tools(word, slot),
        Kind::Ancillary(_) => slot_tools(word, Slot::Main),
        Kind::Global => global_tools(global, event.event),
    }
}

// The tools with one more, if it is chosen.
fn with_tool(tools: u8, tool: u8, is_chosen: bool) -> u8
    requires { tool < 6 }
    ensures { result ≡ cond is_chosen (bit_or tools (1 * 2 ^ tool % 256)) tools }
{
    if is_chosen { tools | 1 << tool } else { tools }
}

// Whether a tool is one of these, and its callback word has a policy for an event.
fn is_called_by(callbacks: &[u64; 6], event: Event, tools: u8, tool: u8) -> bool
    requires { tool < 6 }
    ensures { result ≡ (is_bit tools tool && is_called (slice_index callbacks.now tool) event) }
{
    has_bit(u64::from(tools), tool) && called(callbacks[tool as usize], event)
}

// Of these tools, those whose callback word has a policy for an event.
fn called_tools(callbacks: &[u64; 6], event: Event, tools: u8) -> u8
    ensures { (tool : ℕ) → tool < 6 → is_bit result tool ≡ (is_bit tools tool && is_called (slice_index callbacks.now tool) event) }
{
    let mut called_by = 0u8;
    for tool in 0..6u8 {
        called_by = with_tool(called_by, tool, is_called_by(callbacks, event, tools, tool));
    }
    called_by
}

impl Words {
    ghost use Rattle.std.specs.Prelude.{◌≡◌, ◌<◌, ℕ};
    ghost use Rattle.mon_words.specs.Words.{is_bit};
    ghost use Rattle.mon_recorders.specs.Happenings.{Filter, answers};
    ghost use Rattle.mon_hear.specs.Words as spec;

    /// The tools that an event is delivered to, as bits 0 to 5.
    pub fn hearers(&self, event: &Happening) -> u8
        ensures { (tool : ℕ) → tool < 6 → is_bit result tool ≡ (spec.filter self.now).hears tool event.now }
    {
        let tools = enabled_tools(self.word, self.global, event);
        called_tools(&self.callbacks, event.event, tools)
    }

    /// Whether an event is delivered to a tool.
    pub fn hears(&self, event: &Happening, tool: u8) -> bool
        requires { tool < 6 }
        ensures { result ≡ (spec.filter self.now).hears tool event.now }
    {
        let tools = enabled_tools(self.word, self.global, event);
        is_called_by(&self.callbacks, event.event, tools, tool)
    }

    /// Whether it is answered by a disable.
    pub fn answers(&self, event: &Happening, tool: u8) -> bool
        requires { tool < 6 }
        ensures { result ≡ answers (spec.filter self.now) tool event.now }
    {
        matches!(event.kind, Kind::Local(_, _))
            && once(self.callbacks[tool as usize], event.event)
            && self.hears(event, tool)
    }
}

// Whether an event is enabled by the global word.
fn any_global(events: &[Happening]) -> bool
    ensures { result ≡ spec.any_global events.now }
{
    for event in events {
        if matches!(event.kind, Kind::Global) {
            return true;
        }
    }
    false
}

// The tools for which some event is enabled, as bits 0 to 5.
fn asking_tools(word: u64, global: u64, events: &[Happening]) -> u8
    ensures { (tool : ℕ) → tool < 6 → is_bit result tool ≡ spec.any_enabled word global tool events.now }
{
    let mut tools = 0u8;
    for event in events {
        tools |= enabled_tools(word, global, event);
    }
    tools
}

/// The global word.
pub fn load_global<H: Handle>(handle: &mut H) -> u64
    requires attached { IsTrue (H.told handle.old).attached }
    ensures value { result ≡ (after (H.told handle.old).first (H.told handle.old).seen).global }
    ensures grows { Grows (H.told handle.old) (H.told handle.new) [] }
    ensures same { (H.told handle.new).tally.retirements ≡ (H.told handle.old).tally.retirements }
    ensures loaded { (H.told handle.new).tally.loads ≡ (H.told handle.old).tally.loads ++ Load.Global ∷ [] }
    ensures rest { H.rest handle.new ≡ H.rest handle.old }
{
    handle.global()
}

/// The global word, where an event is enabled by it; else 0.
pub fn load_global_due<H: Handle>(handle: &mut H, events: &[Happening]) -> u64
    requires attached { IsTrue (H.told handle.old).attached }
    ensures value { IsTrue (spec.any_global events.now) → result ≡ (after (H.told handle.old).first (H.told handle.old).seen).global }
    ensures grows { Grows (H.told handle.old) (H.told handle.new) [] }
    ensures same { (H.told handle.new).tally.retirements ≡ (H.told handle.old).tally.retirements }
    ensures loaded { (H.told handle.new).tally.loads ≡ (H.told handle.old).tally.loads ++ spec.global_load events.now }
    ensures rest { H.rest handle.new ≡ H.rest handle.old }
{
    if any_global(events) {
        load_global(handle)
    } else {
        0
    }
}

// The callback word of a tool, where it is among these.
fn load_one<H: Handle>(handle: &mut H, tools: u8, tool: u8) -> u64
    requires attached { IsTrue (H.told handle.old).attached }
    requires tool { tool < 6 }
    ensures value { IsTrue (is_bit tools tool) → result ≡ slice_index (after (H.told handle.old).first (H.told handle.old).seen).callbacks tool }
    ensures grows { Grows (H.told handle.old) (H.told handle.new) [] }
    ensures same { (H.told handle.new).tally.retirements ≡ (H.told handle.old).tally.retirements }
    ensures loaded { (H.told handle.new).tally.loads ≡ (H.told handle.old).tally.loads ++ cond (is_bit tools tool) (Load.Callbacks tool ∷ []) [] }
    ensures rest { H.rest handle.new ≡ H.rest handle.old }
{
    if has_bit(u64::from(tools), tool) {
        handle.callbacks(tool)
    } else {
        0
    }
}

// The callback word of each of these tools.
fn load_callbacks<H: Handle>(handle: &mut H, tools: u8) -> [u64; 6]
    requires attached { IsTrue (H.told handle.old).attached }
    ensures value { (tool : ℕ) → tool < 6 → IsTrue (is_bit tools tool) → slice_index result tool ≡ slice_index (after (H.told handle.old).first (H.told handle.old).seen).callbacks tool }
    ensures grows { Grows (H.told handle.old) (H.told handle.new) [] }
    ensures same { (H.told handle.new).tally.retirements ≡ (H.told handle.old).tally.retirements }
    ensures loaded { (H.told handle.new).tally.loads ≡ (H.told handle.old).tally.loads ++ for_tools (is_bit tools) Load.Callbacks 6 }
    ensures rest { H.rest handle.new ≡ H.rest handle.old }
{
    let mut callbacks = [0; 6];
    for tool in 0..6u8 {
        callbacks[tool as usize] = load_one(handle, tools, tool);
    }
    callbacks
}

/// The words by which events are heard, two of which are in hand. They let through what the board does for which those two
/// stand.
pub fn load_words<H: Handle>(handle: &mut H, word: u64, global: u64, events: &[Happening]) -> Words
    requires attached { IsTrue (H.told handle.old).attached }
    ensures agree { (a : ToldOf) → Grows a (H.told handle.old) [] → AreReadBy (after a.first a.seen) word events.now → (IsTrue (spec.any_global events.now) → global ≡ (after a.first a.seen).global) → spec.Agree (let_through (after a.first a.seen)) (spec.filter result) events.now }
    ensures grows { Grows (H.told handle.old) (H.told handle.new) [] }
    ensures same { (H.told handle.new).tally.retirements ≡ (H.told handle.old).tally.retirements }
    ensures loaded { (H.told handle.new).tally.loads ≡ (H.told handle.old).tally.loads ++ spec.callback_loads word global events.now 6 }
    ensures rest { H.rest handle.new ≡ H.rest handle.old }
{
    let tools = asking_tools(word, global, events);
    let callbacks = load_callbacks(handle, tools);
    Words {
        word,
        global,
        callbacks,
    }
}

/// Whether the word of a location or the global word enables anything. Where neither does, nothing is heard of any events
/// that are enabled by these words alone, and no callback word is due.
pub fn asks(word: u64, global: u64) -> bool
    ensures bits { result ≡ not (bit_and (cell_of word).want (cell_of word).live == 0 && global == 0) }
    ensures nothing { result ≡ false → (b : BoardOf) (events : List HappeningOf) → AreReadBy b word events → (IsTrue (spec.any_global events) → global ≡ b.global) → Unheard b word global events }
{
    !is_quiet(word) || global != 0
}

/// Whether a word enables the event of a slot for some tool.
pub fn asks_slot(word: u64, slot: Slot) -> bool
    ensures bits { result ≡ nat_lt 0 (enabled_in (cell_of word) (slot_number slot)) }
    ensures nothing { result ≡ false → (tool : ℕ) → tool < 6 → is_enabled (cell_of word) slot tool ≡ false }
{
    let enabled = ((word >> 16) % 16_777_216) & (word >> 40);
    (enabled >> (6 * slot.number())) % 64 > 0
}

/// Whether the global word asks for an event for some tool.
pub fn asks_global(global: u64, event: Event) -> bool
    ensures bits { result ≡ spec.wants_some global (rank event) }
    ensures nothing { result ≡ false → (tool : ℕ) → tool < 6 → is_wanted global (rank event) tool ≡ false }
{
    match event.rank() {
        None => false,
        Some(rank) => (global >> (6 * rank)) % 64 > 0,
    }
}
