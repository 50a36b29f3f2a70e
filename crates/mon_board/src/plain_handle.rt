//! A thread's handle of a plain board.
ghost use Rattle.std.specs.Prelude.{◌≡◌, ◌<◌, true, false, IsOk};
ghost use Rattle.mon_words.specs.Tallies.{entered_once};
ghost use Rattle.mon_words.specs.Told.{Enters};
ghost use Rattle.mon_board.specs.PlainViews.{plain_told, other_counts, other_marks, IsRunning};

use crate::plain::PlainBoard;
use crate::plain_rest::PlainRest;
use mon_words::{Handle, WorldStopped};

/// A thread's handle of a plain board. Nothing is stored or noted while it is out.
#[derive(Drop)]
pub struct PlainHandle<'a> {
    board: &'a mut PlainBoard,
    thread: u8,
    ghost low: { thread < board.now.threads },
    ghost current: { board.now.chair.me.0.current ≡ thread },
    ghost running: { IsRunning board.now.chair.me.0 },
}

impl PlainBoard {
    /// The handle of a thread, which is not attached.
    pub fn handle<'a>(&'a mut self, thread: u8) -> PlainHandle<'a>
        requires running { IsRunning self.old.chair.me.0 }
        requires within { thread < self.old.threads }
        ensures borrow { result.board.ghost_name ≡ self.entry.ghost_name }
        ensures threads { result.board.now.threads ≡ self.old.threads }
        ensures view { result.board.now.chair.me.0 ≡ record self.old.chair.me.0 { current = thread; attached = false } }
        ensures thread { result.thread ≡ thread }
    {
        self.turn(thread);
        PlainHandle {
            board: self,
            thread,
        }
    }
}

impl Handle for PlainHandle<'_> {
    type Rest = PlainRest;

    ghost told = { λ h. plain_told h.thread h.board.now.chair.me.0 };

    ghost rest = { λ h. record { borrow = h.board.ghost_name; threads = h.board.now.threads; counts = other_counts h.thread h.board.now.chair.me.0.counts; marks = other_marks h.thread h.board.now.chair.me.0.seen } };

    fn load(&mut self, location: u32) -> u64 {
        self.board.load(location)
    }

    fn disable(&mut self, location: u32, mask: u64) -> u64 {
        self.board.disable(location, mask)
    }

    fn retire(&mut self, location: u32, old: u64) -> bool {
        self.board.retire(location, old)
    }

    fn global(&mut self) -> u64 {
        self.board.global()
    }

    fn callbacks(&mut self, tool: u8) -> u64 {
        self.board.callbacks(tool)
    }

    fn poll(&mut self) -> bool {
        self.board.poll(self.thread);
        false
    }

    /// Attaches, always.
    fn try_enter(&mut self) -> Result<(), WorldStopped>
        ensures borrow { self.new.board.ghost_name ≡ self.old.board.ghost_name }
        ensures thread { self.new.thread ≡ self.old.thread }
        ensures threads { self.new.board.now.threads ≡ self.old.board.now.threads }
        ensures view { self.new.board.now.chair.me.0 ≡ record self.old.board.now.chair.me.0 { attached = true; tally = entered_once self.old.board.now.chair.me.0.tally } }
        ensures kept { (self.new.board.now.chair.me.0.counts ≡ self.old.board.now.chair.me.0.counts) × (self.new.board.now.chair.me.0.seen ≡ self.old.board.now.chair.me.0.seen) }
        ensures told { Enters (plain_told self.old.thread self.old.board.now.chair.me.0) result (plain_told self.new.thread self.new.board.now.chair.me.0) }
        ensures granted { IsOk result }
    {
        self.board.enter(self.thread);
        Ok(())
    }

    fn leave(&mut self, steps: u64) {
        self.board.count(self.thread, steps);
    }
}
