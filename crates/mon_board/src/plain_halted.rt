//! A halted plain board.
ghost use Rattle.std.specs.Prelude.{◌≡◌, ◌++◌, ◌∷◌, [], ◌<◌, ℕ, Some, slice_index};
ghost use Rattle.mon_words.specs.Standing.{noted_of};
ghost use Rattle.mon_board.specs.Plain.{put_of};
ghost use Rattle.mon_board.specs.PlainViews.{plain_halt, IsRunning, IsNoted};

use crate::plain::PlainBoard;
use crate::plain_rest::PlainHaltedRest;
use mon_words::Halted;

/// A plain board while its words are rewritten. The counts that were noted are the stored ones.
pub struct PlainHalted<'a> {
    board: &'a mut PlainBoard,
    ghost counted: { (thread : ℕ) (count : ℕ) → noted_of board.now.chair.me.0.noted thread ≡ Some count → count ≡ slice_index board.now.chair.me.0.counts thread },
}

impl PlainBoard {
    /// The board, whose words may be rewritten until its release.
    pub fn halted<'a>(&'a mut self) -> PlainHalted<'a>
        requires { IsRunning self.old.chair.me.0 }
        ensures borrow { result.board.ghost_name ≡ self.entry.ghost_name }
        ensures value { result.board.now ≡ self.old }
    {
        PlainHalted { board: self }
    }
}

impl PlainHalted<'_> {
    /// Adds the mark of the words and the counts that stand. Every thread's count was read.
    pub fn release(self)
        requires { (thread : ℕ) → thread < self.board.now.chair.me.0.threads → IsNoted self.board.now.chair.me.0 thread }
        ensures threads { self.exit.0.now.threads ≡ self.entry.board.now.threads }
        ensures view { self.exit.0.now.chair.me.0 ≡ record self.entry.board.now.chair.me.0 { seen = self.entry.board.now.chair.me.0.seen ++ put_of self.entry.board.now.chair.me.0 ∷ []; noted = []; written = [] } }
    {
        let PlainHalted { board } = self;
        board.release();
    }
}

impl Halted for PlainHalted<'_> {
    type Rest = PlainHaltedRest;

    ghost halt = { λ h. plain_halt h.board.now.chair.me.0 };

    ghost rest = { λ h. record { borrow = h.board.ghost_name; counts = h.board.now.chair.me.0.counts } };

    fn read(&mut self, location: u32) -> u64 {
        self.board.read(location)
    }

    fn rewrite(&mut self, location: u32, word: u64) {
        self.board.rewrite(location, word);
    }

    fn set_global(&mut self, word: u64) {
        self.board.store(0, word);
    }

    fn set_callbacks(&mut self, tool: u8, word: u64) {
        self.board.store(1 + tool as usize, word);
    }

    fn steps(&mut self, thread: u8) -> u64 {
        self.board.steps(thread)
    }
}
