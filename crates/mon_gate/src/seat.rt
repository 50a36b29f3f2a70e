//! The steps of a thread.
use crate::gate::{Gate, Pass, STOP, Seat};
use crate::place::GATE;
use crate::play::{
    Count, Disable, Enter, Leave, Load, LoadCallbacks, LoadGlobal, Look, Poll, Retire,
};
use mon_words::{WorldStopped, normal};

impl Seat {
    ghost use Rattle.std.specs.Prelude.{◌≡◌, ◌+◌, ◌==◌, ◌<◌, ◌≤◌, ℕ, length, slice_index, nat_le, MatchResult};
    ghost use Rattle.mon_words.specs.Words.{Shows, stop_bit, mask_of};
    ghost use Rattle.mon_words.specs.History.{after, cell_at};
    ghost use Rattle.mon_words.specs.Told.{OneBit};
    ghost use Rattle.mon_gate.specs.Rule.{inside};
    ghost use Rattle.mon_words.specs.Tallies.{loaded_at, loaded_global, loaded_callbacks, disabled_once, tried, polled_once, entered_once};
    ghost use Rattle.mon_gate.specs.Plays.{Goes, Adds};
    ghost use Rattle.mon_gate.specs.Seats.{Belongs, Disabled};
    ghost use Rattle.mon_gate.specs.declared.view.Phase.TheVariants.{Out, Attached};

    /// The number that was drawn.
    pub fn number(&self) -> u8
        ensures { result ≡ self.now.number }
    {
        self.number
    }

    /// Gives the pass back, without a step.
    pub fn end(self) -> Pass
        requires detached { inside self.chair.me.0.phase ≡ 0 }
        ensures gate { result.chair.table_id ≡ self.chair.table_id }
        ensures view { result.chair.me.0 ≡ self.chair.me.0 }
    {
        let Seat { chair, number: _ } = self;
        Pass { chair }
    }

    /// Whether the word that an entry looks at has the stop bit. The look is no poll.
    pub(crate) fn sees_stop(&mut self, gate: &Gate) -> bool
        requires gate { Belongs self.old.chair gate.now }
        ensures gate { self.new.chair.table_id ≡ self.old.chair.table_id }
        ensures number { self.new.number ≡ self.old.number }
        ensures answer { result ≡ nat_le stop_bit self.new.chair.me.0.found }
        ensures view { self.new.chair.me.0 ≡ record self.old.chair.me.0 { found = self.new.chair.me.0.found } }
    {
        let chair = &mut self.chair;
        gate.table.shared.load::<Look>(chair, GATE) >= STOP
    }

    /// One try to attach, which is refused while the gate word has the stop bit; the refusal carries the word found.
    pub fn try_enter(&mut self, gate: &Gate) -> Result<(), WorldStopped>
        requires gate { Belongs self.old.chair gate.now }
        requires detached { self.old.chair.me.0.phase ≡ Out }
        ensures gate { self.new.chair.table_id ≡ self.old.chair.table_id }
        ensures number { self.new.number ≡ self.old.number }
        ensures answer { MatchResult result (λ _. (self.new.chair.me.0.phase ≡ Attached) × (self.new.chair.me.0.found < stop_bit))
            (λ e. (self.new.chair.me.0.phase ≡ Out) × (e.0 ≡ self.new.chair.me.0.found) × (stop_bit ≤ e.0)) }
        ensures seen { Goes self.old.chair.me.0 self.new.chair.me.0.seen }
        ensures view { self.new.chair.me.0 ≡ record self.old.chair.me.0 { phase = self.new.chair.me.0.phase; seen = self.new.chair.me.0.seen; found = self.new.chair.me.0.found; tally = entered_once self.old.chair.me.0.tally } }
    {
        let chair = &mut self.chair;
        let found = gate.table.shared.fetch_add::<Enter>(chair, GATE, 1);
        if found < STOP {
            return Ok(());
        }
        gate.table.shared.fetch_sub::<Leave>(chair, GATE, 1);
        Err(WorldStopped(found))
    }

    /// Stores the step count and detaches.
    pub fn leave(&mut self, gate: &Gate, steps: u64)
        requires gate { Belongs self.old.chair gate.now }
        requires attached { self.old.chair.me.0.phase ≡ Attached }
        requires more { self.old.chair.me.0.stored ≤ steps }
        ensures gate { self.new.chair.table_id ≡ self.old.chair.table_id }
        ensures number { self.new.number ≡ self.old.number }
        ensures view { self.new.chair.me.0 ≡ record self.old.chair.me.0 { phase = Out; stored = steps } }
    {
        let place = gate.count_place(self.number);
        let chair = &mut self.chair;
        gate.table.shared.store::<Count>(chair, place, steps);
        gate.table.shared.fetch_sub::<Leave>(chair, GATE, 1);
    }

    /// Whether the gate word has the stop bit.
    pub fn poll(&mut self, gate: &Gate) -> bool
        requires gate { Belongs self.old.chair gate.now }
        requires attached { self.old.chair.me.0.phase ≡ Attached }
        ensures gate { self.new.chair.table_id ≡ self.old.chair.table_id }
        ensures number { self.new.number ≡ self.old.number }
        ensures answer { result ≡ nat_le stop_bit self.new.chair.me.0.found }
        ensures view { self.new.chair.me.0 ≡ record self.old.chair.me.0 { found = self.new.chair.me.0.found; tally = polled_once self.old.chair.me.0.tally result } }
    {
        let chair = &mut self.chair;
        gate.table.shared.load::<Poll>(chair, GATE) >= STOP
    }

    /// The word of a location.
    pub fn load(&mut self, gate: &Gate, location: u32) -> u64
        requires gate { Belongs self.old.chair gate.now }
        requires attached { self.old.chair.me.0.phase ≡ Attached }
        requires within { location < length self.old.chair.me.0.first.cells }
        ensures gate { self.new.chair.table_id ≡ self.old.chair.table_id }
        ensures number { self.new.number ≡ self.old.number }
        ensures view { self.new.chair.me.0 ≡ record self.old.chair.me.0 { seen = self.new.chair.me.0.seen; tally = loaded_at self.old.chair.me.0.tally location (length self.new.chair.me.0.seen) } }
        ensures seen { Adds self.old.chair.me.0 self.new.chair.me.0.seen }
        ensures word { Shows (cell_at (after self.old.chair.me.0.first self.new.chair.me.0.seen) location) result }
    {
        let chair = &mut self.chair;
        let place = gate.location_place(location);
        gate.table.shared.load::<Load>(chair, place)
    }

    /// The global word.
    pub fn global(&mut self, gate: &Gate) -> u64
        requires gate { Belongs self.old.chair gate.now }
        requires attached { self.old.chair.me.0.phase ≡ Attached }
        ensures gate { self.new.chair.table_id ≡ self.old.chair.table_id }
        ensures number { self.new.number ≡ self.old.number }
        ensures view { self.new.chair.me.0 ≡ record self.old.chair.me.0 { seen = self.new.chair.me.0.seen; tally = loaded_global self.old.chair.me.0.tally } }
        ensures seen { Adds self.old.chair.me.0 self.new.chair.me.0.seen }
        ensures word { result ≡ (after self.old.chair.me.0.first self.new.chair.me.0.seen).global }
    {
        let chair = &mut self.chair;
        let place = gate.global_place();
        gate.table.shared.load::<LoadGlobal>(chair, place)
    }

    /// The callback word of a tool.
    pub fn callbacks(&mut self, gate: &Gate, tool: u8) -> u64
        requires gate { Belongs self.old.chair gate.now }
        requires attached { self.old.chair.me.0.phase ≡ Attached }
        requires within { tool < 6 }
        ensures gate { self.new.chair.table_id ≡ self.old.chair.table_id }
        ensures number { self.new.number ≡ self.old.number }
        ensures view { self.new.chair.me.0 ≡ record self.old.chair.me.0 { seen = self.new.chair.me.0.seen; tally = loaded_callbacks self.old.chair.me.0.tally tool } }
        ensures seen { Adds self.old.chair.me.0 self.new.chair.me.0.seen }
        ensures word { result ≡ slice_index (after self.old.chair.me.0.first self.new.chair.me.0.seen).callbacks tool }
    {
        let chair = &mut self.chair;
        let place = gate.callbacks_place(tool);
        gate.table.shared.load::<LoadCallbacks>(chair, place)
    }

    /// Clears the live bit that the mask leaves out, and gives the word found.
    pub fn disable(&mut self, gate: &Gate, location: u32, mask: u64) -> u64
        requires gate { Belongs self.old.chair gate.now }
        requires attached { self.old.chair.me.0.phase ≡ Attached }
        requires within { location < length self.old.chair.me.0.first.cells }
        requires mask { OneBit mask }
        ensures gate { self.new.chair.table_id ≡ self.old.chair.table_id }
        ensures number { self.new.number ≡ self.old.number }
        ensures view { self.new.chair.me.0 ≡ record self.old.chair.me.0 { seen = self.new.chair.me.0.seen; mine = self.new.chair.me.0.mine; tally = disabled_once self.old.chair.me.0.tally } }
        ensures seen { (k : ℕ) → k < 24 → mask ≡ mask_of k → Disabled self.old.chair.me.0 self.old.number location k result self.new.chair.me.0 }
    {
        let chair = &mut self.chair;
        let place = gate.location_place(location);
        gate.table.shared.fetch_and::<Disable>(chair, place, mask)
    }

    /// One try to give a location the word with the least instrumented opcode for the old word's bits. Where another word
    /// than the old one is found there, it answers false and leaves the word.
    pub fn retire(&mut self, gate: &Gate, location: u32, old: u64) -> bool
        requires gate { Belongs self.old.chair gate.now }
        requires attached { self.old.chair.me.0.phase ≡ Attached }
        requires within { location < length self.old.chair.me.0.first.cells }
        ensures gate { self.new.chair.table_id ≡ self.old.chair.table_id }
        ensures number { self.new.number ≡ self.old.number }
        ensures view { self.new.chair.me.0 ≡ record self.old.chair.me.0 { seen = self.new.chair.me.0.seen; tally = tried self.old.chair.me.0.tally location old result } }
        ensures seen { Adds self.old.chair.me.0 self.new.chair.me.0.seen }
        ensures answer { (found : ℕ) × (result ≡ (found == old)) × Shows (cell_at (after self.old.chair.me.0.first self.new.chair.me.0.seen) location) found }
    {
        let new = normal(old);
        let chair = &mut self.chair;
        let place = gate.location_place(location);
        let found = gate
            .table
            .shared
            .compare_exchange::<Retire>(chair, place, old, new);
        found == old
    }
}
