//! The steps of the controller.
use crate::gate::{Asked, Gate, Idle, NotYet, Pass, STOP, Stopped};
use crate::place::GATE;
use crate::play::{Ask, Note, Observe, Read, Release, Rewrite, Store};

// The low half of the gate word counts the attached threads.
const COUNT_END: u64 = 1 << 32;

impl Idle {
    ghost use Rattle.std.specs.Prelude.{◌≡◌};
    ghost use Rattle.mon_gate.specs.Seats.{Belongs};
    ghost use Rattle.mon_gate.specs.declared.view.Phase.TheVariants.{Asked as AskedNow};

    /// Asks the world to stop.
    pub fn ask(self, gate: &Gate) -> Asked
        requires { Belongs self.chair gate.now }
        ensures gate { result.chair.table_id ≡ self.chair.table_id }
        ensures view { result.chair.me.0 ≡ record self.chair.me.0 { phase = AskedNow } }
    {
        let Idle { mut chair } = self;
        gate.table.shared.fetch_or::<Ask>(&mut chair, GATE, STOP);
        Asked { chair }
    }

    /// Gives the first pass back, without a step.
    pub fn end(self) -> Pass
        ensures gate { result.chair.table_id ≡ self.chair.table_id }
        ensures view { result.chair.me.0 ≡ self.chair.me.0 }
    {
        let Idle { chair } = self;
        Pass { chair }
    }
}

impl Asked {
    ghost use Rattle.std.specs.Prelude.{◌≡◌, [], false, length, IfOk, IfErr, IsTrue};
    ghost use Rattle.mon_words.specs.History.{Begins, Placed, puts};
    ghost use Rattle.mon_words.specs.Tallies.{observed_once};
    ghost use Rattle.mon_gate.specs.Places.{counts_attached};
    ghost use Rattle.mon_gate.specs.Seats.{Belongs};
    ghost use Rattle.mon_gate.specs.declared.view.Phase.TheVariants.{Stopped as StoppedNow};

    /// One look whether a thread is attached. The world is stopped where the gate word counts none.
    pub fn observe(self, gate: &Gate) -> Result<Stopped, NotYet>
        requires { Belongs self.chair gate.now }
        ensures gate { IfOk result (λ s. s.chair.table_id ≡ self.chair.table_id) }
        ensures none { IfOk result (λ s. counts_attached s.chair.me.0.found ≡ false) }
        ensures seen { IfOk result (λ s. Begins self.chair.me.0.seen s.chair.me.0.seen × (puts s.chair.me.0.seen ≡ self.chair.me.0.mine)) }
        ensures placed { IfOk result (λ s. Placed (length self.chair.me.0.first.cells) s.chair.me.0.seen) }
        ensures view { IfOk result (λ s. s.chair.me.0 ≡ record self.chair.me.0 { phase = StoppedNow; seen = s.chair.me.0.seen; noted = []; written = []; found = s.chair.me.0.found; tally = observed_once self.chair.me.0.tally }) }
        ensures still_gate { IfErr result (λ n. n.asked.chair.table_id ≡ self.chair.table_id) }
        ensures some { IfErr result (λ n. IsTrue (counts_attached n.word)) }
        ensures still_view { IfErr result (λ n. n.asked.chair.me.0 ≡ record self.chair.me.0 { found = n.word; tally = observed_once self.chair.me.0.tally }) }
    {
        let Asked { mut chair } = self;
        let word = gate.table.shared.load::<Observe>(&mut chair, GATE);
        if word % COUNT_END == 0 {
            return Ok(Stopped { chair });
        }
        let asked = Asked { chair };
        Err(NotYet { word, asked })
    }
}

impl Stopped {
    ghost use Rattle.std.specs.Prelude.{◌≡◌, ◌∷◌, ◌++◌, ◌<◌, ◌%◌, ◌+◌, [], ℕ, Some, length};
    ghost use Rattle.mon_words.specs.Words.{cell_of, before_locations, Allowed, Shows};
    ghost use Rattle.mon_words.specs.Tallies.{read_at, rewritten_once};
    ghost use Rattle.mon_words.specs.History.{cell_at, UpTo};
    ghost use Rattle.mon_words.specs.Standing.{noted_of, count_of};
    ghost use Rattle.mon_gate.specs.Plays.{standing, put_of};
    ghost use Rattle.mon_gate.specs.Seats.{Belongs, IsNoted};
    ghost use Rattle.mon_gate.specs.declared.view.Phase.TheVariants.{Idle as IdleNow};

    /// The word of a location.
    pub fn read(&mut self, gate: &Gate, location: u32) -> u64
        requires gate { Belongs self.old.chair gate.now }
        requires within { location < length self.old.chair.me.0.first.cells }
        ensures gate { self.new.chair.table_id ≡ self.old.chair.table_id }
        ensures view { self.new.chair.me.0 ≡ record self.old.chair.me.0 { tally = read_at self.old.chair.me.0.tally location } }
        ensures word { Shows (cell_at (standing self.old.chair.me.0) location) result }
    {
        let chair = &mut self.chair;
        let place = gate.location_place(location);
        gate.table.shared.load::<Read>(chair, place)
    }

    /// Stores the word of a location, which keeps its base and has an opcode in place that may stand for its bits.
    pub fn rewrite(&mut self, gate: &Gate, location: u32, word: u64)
        requires gate { Belongs self.old.chair gate.now }
        requires within { location < length self.old.chair.me.0.first.cells }
        requires base { (cell_of word).base ≡ (cell_at (standing self.old.chair.me.0) location).base }
        requires allowed { Allowed (cell_of word) (word % 256) }
        ensures gate { self.new.chair.table_id ≡ self.old.chair.table_id }
        ensures view { self.new.chair.me.0 ≡ record self.old.chair.me.0 { written = record { place = before_locations + location; word = word } ∷ self.old.chair.me.0.written; tally = rewritten_once self.old.chair.me.0.tally } }
    {
        let chair = &mut self.chair;
        let place = gate.location_place(location);
        gate.table.shared.store::<Rewrite>(chair, place, word);
    }

    /// Stores the global word.
    pub fn set_global(&mut self, gate: &Gate, word: u64)
        requires { Belongs self.old.chair gate.now }
        ensures gate { self.new.chair.table_id ≡ self.old.chair.table_id }
        ensures view { self.new.chair.me.0 ≡ record self.old.chair.me.0 { written = record { place = 0; word = word } ∷ self.old.chair.me.0.written } }
    {
        let chair = &mut self.chair;
        let place = gate.global_place();
        gate.table.shared.store::<Store>(chair, place, word);
    }

    /// Stores the callback word of a tool.
    pub fn set_callbacks(&mut self, gate: &Gate, tool: u8, word: u64)
        requires gate { Belongs self.old.chair gate.now }
        requires within { tool < 6 }
        ensures gate { self.new.chair.table_id ≡ self.old.chair.table_id }
        ensures view { self.new.chair.me.0 ≡ record self.old.chair.me.0 { written = record { place = 1 + tool; word = word } ∷ self.old.chair.me.0.written } }
    {
        let chair = &mut self.chair;
        let place = gate.callbacks_place(tool);
        gate.table.shared.store::<Store>(chair, place, word);
    }

    /// The stored step count of a thread, which is noted.
    pub fn steps(&mut self, gate: &Gate, thread: u8) -> u64
        requires gate { Belongs self.old.chair gate.now }
        requires within { thread < self.old.chair.me.0.threads }
        ensures gate { self.new.chair.table_id ≡ self.old.chair.table_id }
        ensures view { self.new.chair.me.0 ≡ record self.old.chair.me.0 { noted = record { number = thread; count = result } ∷ self.old.chair.me.0.noted } }
        ensures again { (count : ℕ) → noted_of self.old.chair.me.0.noted thread ≡ Some count → result ≡ count }
        ensures high { UpTo thread result self.old.chair.me.0.seen }
    {
        let chair = &mut self.chair;
        let place = gate.count_place(thread);
        gate.table.shared.load::<Note>(chair, place)
    }

    /// Lets the world run. The board that stands and the counts that were read are the last mark of what is seen then.
    /// Where the first pass still has every ticket, these counts are 0.
    pub fn release(self, gate: &Gate) -> Idle
        requires gate { Belongs self.chair gate.now }
        requires noted { (thread : ℕ) → thread < self.chair.me.0.threads → IsNoted self.chair.me.0 thread }
        ensures gate { result.chair.table_id ≡ self.chair.table_id }
        ensures view { result.chair.me.0 ≡ record self.chair.me.0 { phase = IdleNow; seen = self.chair.me.0.seen ++ put_of self.chair.me.0 ∷ []; mine = self.chair.me.0.mine ++ put_of self.chair.me.0 ∷ []; noted = []; written = [] } }
        ensures unclaimed { self.chair.me.0.tickets ≡ self.chair.me.0.threads → (thread : ℕ) → thread < self.chair.me.0.threads → count_of self.chair.me.0.noted thread ≡ 0 }
    {
        let Stopped { mut chair } = self;
        gate.table
            .shared
            .fetch_and::<Release>(&mut chair, GATE, STOP - 1);
        Idle { chair }
    }
}
