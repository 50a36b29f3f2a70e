//! The board of one thread, which takes the parts of several in turn.
ghost use Rattle.std.specs.Prelude.{◌≡◌, ◌+◌, ◌++◌, ◌<◌, [], IfOk, length, map, replicate};
ghost use Rattle.mon_words.specs.History.{base_in};
ghost use Rattle.mon_board.specs.Plain.{standing};
ghost use Rattle.mon_board.specs.declared.plain.BoardFault.TheVariants as board_fault;

use crate::plain_play::{
    Count, Disable, Enter, Load, LoadCallbacks, LoadGlobal, Note, PlainRule, Poll, Read, Release,
    Retire, Rewrite, Store, Turn,
};
use crate::plain_view::{PlainPlan, PlainView};
use atomic_table::{Seat, Table};
use mon_words::{BEFORE_LOCATIONS, normal};
use std::alloc::{AllocError, Global};
use std::snapshot::Snapshot;
use thiserror::Error;

type Chair = Seat<(), PlainView>;

/// Why a board could not be made.
#[derive(Clone, Copy, Debug, PartialEq, Eq, Error)]
pub enum BoardFault {
    #[error("out of memory")]
    Memory,
}

impl From<AllocError> for BoardFault {
    ghost from_gives = { λ _ e. e ≡ board_fault.Memory };

    fn from(_: AllocError) -> BoardFault {
        BoardFault::Memory
    }
}

/// The words of a board, with one seat for all threads.
#[derive(Drop)]
pub struct PlainBoard {
    pub(crate) table: Table<(), PlainView, PlainPlan, PlainRule, Global>,
    pub(crate) chair: Chair,
    pub(crate) threads: u8,
    ghost table_is: { chair.table_id ≡ table.shared.table_id },
    ghost bare: { chair.me.1 ≡ [] },
    ghost threads_are: { chair.me.0.threads ≡ threads },
    ghost words_are: { table.shared.table_id.words ≡ threads + 7 + length chair.me.0.first.cells },
    ghost counts_are: { length chair.me.0.counts ≡ threads },
    ghost based: { map base_in (standing chair.me.0).cells ≡ map base_in chair.me.0.first.cells },
    ghost six: { length (standing chair.me.0).callbacks ≡ 6 },
    // nobody asks for a stop
    ghost unasked: { chair.me.0.tally.polled ≡ 0 },
}

impl PlainBoard {
    ghost use Rattle.std.specs.Prelude.{◌≡◌, ◌∷◌, ◌++◌, ◌==◌, ◌<◌, ◌≤◌, ◌%◌, ◌^◌, ◌+◌, [], ℕ, slice_index, slice_set, true, false, length};
    ghost use Rattle.mon_words.specs.Words.{cell_of, mask_of, Allowed, Shows};
    ghost use Rattle.mon_words.specs.History.{cell_at, UpTo};
    ghost use Rattle.mon_words.specs.Told.{OneBit};
    ghost use Rattle.mon_words.specs.Tallies.{loaded_at, loaded_global, loaded_callbacks, disabled_once, tried, polled_once, entered_once, read_at, rewritten_once};
    ghost use Rattle.mon_words.specs.Standing.{board_of, IsFirst};
    ghost use Rattle.mon_words.specs.declared.history.Mark.TheVariants.{Off};
    ghost use Rattle.mon_board.specs.Plain.{first_plain, put_of, word_place};
    ghost use Rattle.mon_board.specs.PlainViews.{IsRunning, IsNoted};

    /// A board for these threads over these words: the global word, the callback words of six tools, and the words of the
    /// locations.
    pub fn new(alloc: Global, threads: u8, first: &[u64]) -> Result<PlainBoard, BoardFault>
        requires { IsFirst first.now }
        ensures threads { IfOk result (λ b. b.threads ≡ threads) }
        ensures view { IfOk result (λ b. b.chair.me.0 ≡ first_plain threads (board_of first.now)) }
    {
        let words = table_words(alloc, threads, first)?;
        let plan = PlainPlan {
            threads,
            words: Snapshot::of(&words),
        };
        let (table, chair) = Table::of_words(alloc, &words, &plan)?;
        Ok(PlainBoard {
            table,
            chair,
            threads,
        })
    }

    // The place of a word of the board, by its number.
    fn place(&self, number: usize) -> usize
        requires { number < 2 ^ 33 }
        ensures { result ≡ word_place self.now.threads number }
    {
        self.threads as usize + number
    }

    // Hands the seat to a thread, which is not attached.
    pub(crate) fn turn(&mut self, thread: u8)
        requires { thread < self.old.threads }
        ensures threads { self.new.threads ≡ self.old.threads }
        ensures view { self.new.chair.me.0 ≡ record self.old.chair.me.0 { current = thread; attached = false } }
    {
        let chair = &mut self.chair;
        self.table.shared.load::<Turn>(chair, thread as usize);
    }

    // A load of the count of the thread whose turn it is, which attaches it.
    pub(crate) fn enter(&mut self, thread: u8)
        requires within { thread < self.old.threads }
        requires turn { self.old.chair.me.0.current ≡ thread }
        ensures threads { self.new.threads ≡ self.old.threads }
        ensures view { self.new.chair.me.0 ≡ record self.old.chair.me.0 { attached = true; tally = entered_once self.old.chair.me.0.tally } }
    {
        let chair = &mut self.chair;
        self.table.shared.load::<Enter>(chair, thread as usize);
    }

    // A load of the count of the thread whose turn it is, as a poll.
    pub(crate) fn poll(&mut self, thread: u8)
        requires within { thread < self.old.threads }
        requires turn { self.old.chair.me.0.current ≡ thread }
        ensures threads { self.new.threads ≡ self.old.threads }
        ensures view { self.new.chair.me.0 ≡ record self.old.chair.me.0 { tally = polled_once self.old.chair.me.0.tally false } }
    {
        let chair = &mut self.chair;
        self.table.shared.load::<Poll>(chair, thread as usize);
    }

    // The word of a location, for the thread whose turn it is.
    pub(crate) fn load(&mut self, location: u32) -> u64
        requires { location < length self.old.chair.me.0.first.cells }
        ensures threads { self.new.threads ≡ self.old.threads }
        ensures view { self.new.chair.me.0 ≡ record self.old.chair.me.0 { tally = loaded_at self.old.chair.me.0.tally location (length self.old.chair.me.0.seen) } }
        ensures word { Shows (cell_at (standing self.old.chair.me.0) location) result }
    {
        let place = self.place(BEFORE_LOCATIONS + location as usize);
        let chair = &mut self.chair;
        self.table.shared.load::<Load>(chair, place)
    }

    // The global word, for the thread whose turn it is.
    pub(crate) fn global(&mut self) -> u64
        ensures threads { self.new.threads ≡ self.old.threads }
        ensures view { self.new.chair.me.0 ≡ record self.old.chair.me.0 { tally = loaded_global self.old.chair.me.0.tally } }
        ensures word { result ≡ (standing self.old.chair.me.0).global }
    {
        let place = self.place(0);
        let chair = &mut self.chair;
        self.table.shared.load::<LoadGlobal>(chair, place)
    }

    // The callback word of a tool, for the thread whose turn it is.
    pub(crate) fn callbacks(&mut self, tool: u8) -> u64
        requires { tool < 6 }
        ensures threads { self.new.threads ≡ self.old.threads }
        ensures view { self.new.chair.me.0 ≡ record self.old.chair.me.0 { tally = loaded_callbacks self.old.chair.me.0.tally tool } }
        ensures word { result ≡ slice_index (standing self.old.chair.me.0).callbacks tool }
    {
        let place = self.place(1 + tool as usize);
        let chair = &mut self.chair;
        self.table.shared.load::<LoadCallbacks>(chair, place)
    }

    // Clears the live bit that the mask leaves out, for the thread whose turn it is.
    pub(crate) fn disable(&mut self, location: u32, mask: u64) -> u64
        requires running { IsRunning self.old.chair.me.0 }
        requires within { location < length self.old.chair.me.0.first.cells }
        requires mask { OneBit mask }
        ensures threads { self.new.threads ≡ self.old.threads }
        ensures view { (k : ℕ) → k < 24 → mask ≡ mask_of k → self.new.chair.me.0 ≡ record self.old.chair.me.0 { seen = self.old.chair.me.0.seen ++ Off self.old.chair.me.0.current location k ∷ []; tally = disabled_once self.old.chair.me.0.tally } }
        ensures word { Shows (cell_at (standing self.old.chair.me.0) location) result }
    {
        let place = self.place(BEFORE_LOCATIONS + location as usize);
        let chair = &mut self.chair;
        self.table.shared.fetch_and::<Disable>(chair, place, mask)
    }

    // One try to give a location the word with the least instrumented opcode for the old word's bits. Where another word than
    // the old one is found there, it answers false and leaves the word.
    pub(crate) fn retire(&mut self, location: u32, old: u64) -> bool
        requires running { IsRunning self.old.chair.me.0 }
        requires within { location < length self.old.chair.me.0.first.cells }
        ensures threads { self.new.threads ≡ self.old.threads }
        ensures view { self.new.chair.me.0 ≡ record self.old.chair.me.0 { tally = tried self.old.chair.me.0.tally location old result } }
        ensures answer { (found : ℕ) × (result ≡ (found == old)) × Shows (cell_at (standing self.old.chair.me.0) location) found }
    {
        let new = normal(old);
        let place = self.place(BEFORE_LOCATIONS + location as usize);
        let chair = &mut self.chair;
        let found = self
            .table
            .shared
            .compare_exchange::<Retire>(chair, place, old, new);
        found == old
    }

    // Stores the count of a thread, and detaches it.
    pub(crate) fn count(&mut self, thread: u8, steps: u64)
        requires running { IsRunning self.old.chair.me.0 }
        requires within { thread < self.old.threads }
        requires more { slice_index self.old.chair.me.0.counts thread ≤ steps }
        ensures threads { self.new.threads ≡ self.old.threads }
        ensures view { self.new.chair.me.0 ≡ record self.old.chair.me.0 { counts = slice_set self.old.chair.me.0.counts thread steps; attached = false } }
    {
        let chair = &mut self.chair;
        self.table
            .shared
            .store::<Count>(chair, thread as usize, steps);
    }

    // The stored count of a thread, which is noted.
    pub(crate) fn steps(&mut self, thread: u8) -> u64
        requires { thread < self.old.threads }
        ensures threads { self.new.threads ≡ self.old.threads }
        ensures view { self.new.chair.me.0 ≡ record self.old.chair.me.0 { noted = record { number = thread; count = result } ∷ self.old.chair.me.0.noted } }
        ensures count { result ≡ slice_index self.old.chair.me.0.counts thread }
        ensures high { UpTo thread result self.old.chair.me.0.seen }
    {
        let chair = &mut self.chair;
        self.table.shared.load::<Note>(chair, thread as usize)
    }

    // The word of a location while the board is halted.
    pub(crate) fn read(&mut self, location: u32) -> u64
        requires { location < length self.old.chair.me.0.first.cells }
        ensures threads { self.new.threads ≡ self.old.threads }
        ensures view { self.new.chair.me.0 ≡ record self.old.chair.me.0 { tally = read_at self.old.chair.me.0.tally location } }
        ensures word { Shows (cell_at (standing self.old.chair.me.0) location) result }
    {
        let place = self.place(BEFORE_LOCATIONS + location as usize);
        let chair = &mut self.chair;
        self.table.shared.load::<Read>(chair, place)
    }

    // Stores the word of a location, which keeps its base and has an opcode in place that may stand for its bits.
    pub(crate) fn rewrite(&mut self, location: u32, word: u64)
        requires within { location < length self.old.chair.me.0.first.cells }
        requires base { (cell_of word).base ≡ (cell_at (standing self.old.chair.me.0) location).base }
        requires allowed { Allowed (cell_of word) (word % 256) }
        ensures threads { self.new.threads ≡ self.old.threads }
        ensures view { self.new.chair.me.0 ≡ record self.old.chair.me.0 { written = record { place = 7 + location; word = word } ∷ self.old.chair.me.0.written; tally = rewritten_once self.old.chair.me.0.tally } }
    {
        let place = self.place(BEFORE_LOCATIONS + location as usize);
        let chair = &mut self.chair;
        self.table.shared.store::<Rewrite>(chair, place, word);
    }

    // Stores the global word or a callback word, by its number.
    pub(crate) fn store(&mut self, number: usize, word: u64)
        requires { number < 7 }
        ensures threads { self.new.threads ≡ self.old.threads }
        ensures view { self.new.chair.me.0 ≡ record self.old.chair.me.0 { written = record { place = number; word = word } ∷ self.old.chair.me.0.written } }
    {
        let place = self.place(number);
        let chair = &mut self.chair;
        self.table.shared.store::<Store>(chair, place, word);
    }

    // Adds the mark of the board that stands. No word changes; a word is loaded because what the seat knows changes at a step
    // alone.
    pub(crate) fn release(&mut self)
        requires { (thread : ℕ) → thread < self.old.chair.me.0.threads → IsNoted self.old.chair.me.0 thread }
        ensures threads { self.new.threads ≡ self.old.threads }
        ensures view { self.new.chair.me.0 ≡ record self.old.chair.me.0 { seen = self.old.chair.me.0.seen ++ put_of self.old.chair.me.0 ∷ []; noted = []; written = [] } }
    {
        let place = self.place(0);
        let chair = &mut self.chair;
        self.table.shared.load::<Release>(chair, place);
    }
}

// The words of a plain board on which nothing was done: a count of 0 for each thread, and then those of the board.
fn table_words(alloc: Global, threads: u8, first: &[u64]) -> Result<Vec<u64>, AllocError>
    ensures { IfOk result (λ words. words.items ≡ replicate threads 0 ++ first.now) }
{
    let mut words = Vec::new(alloc);
    for _ in 0..threads {
        words.push(0)?;
    }
    for word in first {
        words.push(*word)?;
    }
    Ok(words)
}
