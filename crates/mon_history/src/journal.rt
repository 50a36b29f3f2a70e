use crate::calls::{ControlCall, Reply, Who};
use mon_events::Slot;
use std::alloc::{AllocError, Global};
use std::marker::Model;

/// The step counts of the threads.
#[derive(Debug, Drop)]
pub struct Counts {
    items: Vec<u64>,
}

impl Model for Counts {
    ghost use Rattle.std.specs.Prelude.{List, ℕ};

    ghost Value = { List ℕ };

    ghost view = { λ c. c.items.items };
}

impl Counts {
    ghost use Rattle.std.specs.Prelude.{◌≡◌, ◌<◌, length, slice_set, IfOk};

    /// A count of 0 for each thread.
    pub fn zeros(alloc: Global, threads: u8) -> Result<Counts, AllocError>
        ensures { IfOk result (λ c. length c ≡ threads) }
    {
        Ok(Counts {
            items: vec![in alloc; 0; threads as usize]?,
        })
    }

    /// The number of threads.
    pub fn len(&self) -> usize
        ensures { result ≡ length self.now }
    {
        self.items.len()
    }

    /// The counts, by the numbers of the threads.
    pub fn as_slice(&self) -> &[u64]
        ensures { result.now ≡ self.now }
    {
        self.items.as_slice()
    }

    /// Sets the count of a thread.
    pub fn set(&mut self, thread: usize, count: u64)
        requires { thread < length self.old }
        ensures { self.new ≡ slice_set self.old thread count }
    {
        self.items[thread] = count;
    }
}

/// One call, as it went.
#[derive(Debug, Drop)]
pub struct JournalLine {
    pub call: ControlCall,
    pub who: Who,
    pub reply: Reply,
    /// The step counts of the threads at the stop, where the call stopped the world.
    pub stops: Option<Counts>,
}

/// All calls, in order. Contracts see its lines, and for how many more it has room.
#[derive(Debug, Drop)]
pub struct Journal {
    lines: Vec<JournalLine>,
}

impl Model for Journal {
    ghost use Rattle.std.specs.Prelude.{◌-◌};
    ghost use Rattle.std.specs.Vec.{vec_len, vec_capacity};
    ghost use Rattle.mon_history.specs.Lines.{Lines};

    ghost Value = { Lines };

    ghost view = { λ j. record { lines = j.lines.items; room = vec_capacity j.lines - vec_len j.lines } };
}

impl Journal {
    ghost use Rattle.std.specs.Prelude.{◌≡◌, ◌<◌, [], ◌∷◌, ◌++◌, length, slice_get, OnOk};
    ghost use Rattle.std.specs.Option.{option_copied};

    /// The journal without calls.
    pub fn new(alloc: Global) -> Journal
        ensures { result.lines ≡ [] }
    {
        Journal {
            lines: Vec::new(alloc),
        }
    }

    /// The number of calls.
    pub fn len(&self) -> usize
        ensures { result ≡ length self.now.lines }
    {
        self.lines.len()
    }

    /// The line of call k, counted from 0.
    pub fn get(&self, at: usize) -> Option<&JournalLine>
        ensures { option_copied result ≡ slice_get self.now.lines at }
    {
        self.lines.get(at)
    }

    /// The lines, in order.
    pub fn as_slice(&self) -> &[JournalLine]
        ensures { result.now ≡ self.now.lines }
    {
        self.lines.as_slice()
    }

    /// Makes room for one line.
    pub fn reserve(&mut self) -> Result<(), AllocError>
        ensures lines { self.new.lines ≡ self.old.lines }
        ensures room { OnOk result (0 < self.new.room) }
    {
        self.lines.reserve(1)
    }

    /// Appends a line, for which there is room.
    pub fn add(&mut self, line: JournalLine)
        requires room { 0 < self.old.room }
        requires few { length self.old.lines < 256 }
        ensures { self.new.lines ≡ self.old.lines ++ line ∷ [] }
    {
        if self.lines.push(line).is_err() {
            unreachable!()
        }
    }
}

/// What a history is made of. Contracts alone see it.
#[derive(Debug, Drop)]
pub enum Entry {
    /// The stopping call of this number, counted from 0, with the threads' step counts at its stop.
    Change {
        number: u32,
        stops: Counts,
    },
    Disable {
        thread: u8,
        location: u32,
        slot: Slot,
        tool: u8,
    },
}
