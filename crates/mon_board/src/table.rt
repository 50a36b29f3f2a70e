//! The words of a gate, as a thread's handle and as a stopped world.
ghost use Rattle.std.specs.Prelude.{◌≡◌, false, IfErr};
ghost use Rattle.mon_words.specs.Told.{Enters};
ghost use Rattle.mon_gate.specs.Seats.{Belongs};
ghost use Rattle.mon_gate.specs.declared.view.Phase.TheVariants.{Out};
ghost use Rattle.mon_board.specs.Views.{is_attached, told_of, halt_of};

use crate::rest::{HaltedTableRest, TableRest};
use mon_gate::{Gate, Seat, Stopped};
use mon_words::{Halted, Handle, WorldStopped};

/// A thread's handle of the words of a gate. It is not dropped: `into_seat` gives the seat back once it is not attached.
pub struct TableHandle<'g> {
    seat: Seat,
    gate: &'g Gate,
    ghost fits: { Belongs seat.chair gate.now },
}

impl<'g> TableHandle<'g> {
    pub fn new(seat: Seat, gate: &'g Gate) -> TableHandle<'g>
        requires { Belongs seat.chair gate.now }
        ensures { (result.seat ≡ seat) × (result.gate.now ≡ gate.now) }
    {
        TableHandle { seat, gate }
    }

    /// Gives the seat back, which is not attached.
    pub fn into_seat(self) -> Seat
        requires detached { is_attached self.seat.chair.me.0.phase ≡ false }
        ensures seat { result ≡ self.entry.seat }
        ensures detached { result.chair.me.0.phase ≡ Out }
    {
        let TableHandle { seat, gate: _ } = self;
        seat
    }
}

impl Handle for TableHandle<'_> {
    type Rest = TableRest;

    ghost told = { λ h. told_of h.seat.chair.me.0 };

    ghost rest = { λ h. record { gate = h.seat.chair.table_id; threads = h.seat.chair.me.0.threads; tickets = h.seat.chair.me.0.tickets; ended = h.seat.chair.me.0.ended } };

    fn load(&mut self, location: u32) -> u64 {
        self.seat.load(self.gate, location)
    }

    fn disable(&mut self, location: u32, mask: u64) -> u64 {
        self.seat.disable(self.gate, location, mask)
    }

    fn retire(&mut self, location: u32, old: u64) -> bool {
        self.seat.retire(self.gate, location, old)
    }

    fn global(&mut self) -> u64 {
        self.seat.global(self.gate)
    }

    fn callbacks(&mut self, tool: u8) -> u64 {
        self.seat.callbacks(self.gate, tool)
    }

    fn poll(&mut self) -> bool {
        self.seat.poll(self.gate)
    }

    /// One try to attach. A refusal carries the gate word that this try found.
    fn try_enter(&mut self) -> Result<(), WorldStopped>
        requires detached { is_attached self.old.seat.chair.me.0.phase ≡ false }
        ensures gate { self.new.seat.chair.table_id ≡ self.old.seat.chair.table_id }
        ensures kept { (self.new.seat.chair.me.0.threads ≡ self.old.seat.chair.me.0.threads) × (self.new.seat.chair.me.0.tickets ≡ self.old.seat.chair.me.0.tickets) × (self.new.seat.chair.me.0.ended ≡ self.old.seat.chair.me.0.ended) }
        ensures told { Enters (told_of self.old.seat.chair.me.0) result (told_of self.new.seat.chair.me.0) }
        ensures found { IfErr result (λ w. w.0 ≡ self.new.seat.chair.me.0.found) }
    {
        self.seat.try_enter(self.gate)
    }

    fn leave(&mut self, steps: u64) {
        self.seat.leave(self.gate, steps);
    }
}

/// The words of a gate while its controller has stopped the world.
#[derive(Drop)]
pub struct HaltedTable<'a> {
    stopped: &'a mut Stopped,
    gate: &'a Gate,
    ghost fits: { Belongs stopped.now.chair gate.now },
}

impl<'a> HaltedTable<'a> {
    pub fn new(stopped: &'a mut Stopped, gate: &'a Gate) -> HaltedTable<'a>
        requires { Belongs stopped.old.chair gate.now }
        ensures borrow { result.stopped.ghost_name ≡ stopped.entry.ghost_name }
        ensures value { result.stopped.now ≡ stopped.old }
    {
        HaltedTable { stopped, gate }
    }
}

impl Halted for HaltedTable<'_> {
    type Rest = HaltedTableRest;

    ghost halt = { λ h. halt_of h.stopped.now.chair.me.0 };

    ghost rest = { λ h. record { gate = h.stopped.now.chair.table_id; borrow = h.stopped.ghost_name; mine = h.stopped.now.chair.me.0.mine; tickets = h.stopped.now.chair.me.0.tickets; ended = h.stopped.now.chair.me.0.ended } };

    fn read(&mut self, location: u32) -> u64 {
        self.stopped.read(self.gate, location)
    }

    fn rewrite(&mut self, location: u32, word: u64) {
        self.stopped.rewrite(self.gate, location, word);
    }

    fn set_global(&mut self, word: u64) {
        self.stopped.set_global(self.gate, word);
    }

    fn set_callbacks(&mut self, tool: u8, word: u64) {
        self.stopped.set_callbacks(self.gate, tool, word);
    }

    fn steps(&mut self, thread: u8) -> u64 {
        self.stopped.steps(self.gate, thread)
    }
}
