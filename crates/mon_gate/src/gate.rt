ghost use Rattle.mon_words.specs.History.{base_in, offs};
ghost use Rattle.mon_words.specs.Standing.{size};
ghost use Rattle.mon_gate.specs.Places.{board_place, word_place};
ghost use Rattle.mon_gate.specs.Plays.{standing};
ghost use Rattle.mon_gate.specs.Rule.{first_board, inside, numbered, works};
ghost use Rattle.mon_gate.specs.declared.gate.GateFault.TheVariants as gate_fault;
ghost use Rattle.mon_gate.specs.declared.view.Phase.TheVariants.{Idle as IdleNow, Asked as AskedNow, Stopped as StoppedNow};
ghost use Rattle.std.specs.Prelude.{◌≡◌, ◌+◌, ◌++◌, ◌<◌, [], IfOk, length, map, replicate};

use crate::play::GateRule;
use crate::view::{Plan, View};
use atomic_table::Table;
use std::alloc::{AllocError, Global};
use std::snapshot::Snapshot;
use thiserror::Error;

pub(crate) type Chair = atomic_table::Seat<(), View>;

/// The bit of the gate word that asks the world to stop.
pub(crate) const STOP: u64 = 1 << 63;

/// Why a gate could not be made.
#[derive(Clone, Copy, Debug, PartialEq, Eq, Error)]
pub enum GateFault {
    #[error("out of memory")]
    Memory,
}

impl From<AllocError> for GateFault {
    ghost from_gives = { λ _ e. e ≡ gate_fault.Memory };

    fn from(_: AllocError) -> GateFault {
        GateFault::Memory
    }
}

/// The words that threads and a controller share. Every call that takes a gate beside a pass, a seat or a state of the
/// controller requires that these belong to it.
#[derive(Drop)]
pub struct Gate {
    pub(crate) table: Table<(), View, Plan, GateRule, Global>,
    pub(crate) threads: u8,
    ghost threads_are: { table.shared.key.threads ≡ threads },
    ghost words_are: { table.shared.table_id.words ≡ word_place threads (size (first_board table.shared.key)) },
}

/// The right to take part in a gate. The first pass of a gate becomes its controller, the others claim numbers.
#[derive(Drop)]
pub struct Pass {
    pub(crate) chair: Chair,
    ghost bare: { chair.me.1 ≡ [] },
}

/// A thread's seat at the gate, with the number that it drew.
#[derive(Drop)]
pub struct Seat {
    pub(crate) chair: Chair,
    pub(crate) number: u8,
    ghost bare: { chair.me.1 ≡ [] },
    ghost named: { chair.me.0.number ≡ number },
    ghost low: { number < chair.me.0.threads },
    ghost live: { numbered chair.me.0.phase ≡ 1 },
    ghost settled: { inside chair.me.0.phase ≡ works chair.me.0.phase },
    ghost own: { offs chair.me.0.number chair.me.0.seen ≡ chair.me.0.mine },
}

/// The controller while the world runs.
pub struct Idle {
    pub(crate) chair: Chair,
    ghost bare: { chair.me.1 ≡ [] },
    ghost phase: { chair.me.0.phase ≡ IdleNow },
}

/// The controller that has asked the world to stop.
pub struct Asked {
    pub(crate) chair: Chair,
    ghost bare: { chair.me.1 ≡ [] },
    ghost phase: { chair.me.0.phase ≡ AskedNow },
}

/// The controller of a stopped world: while it exists no seat is attached.
pub struct Stopped {
    pub(crate) chair: Chair,
    ghost bare: { chair.me.1 ≡ [] },
    ghost phase: { chair.me.0.phase ≡ StoppedNow },
    ghost based: { map base_in (standing chair.me.0).cells ≡ map base_in chair.me.0.first.cells },
    ghost six: { length (standing chair.me.0).callbacks ≡ 6 },
}

/// Some thread is attached still, as the gate word that was found counts.
pub struct NotYet {
    pub word: u64,
    pub asked: Asked,
}

impl Gate {
    ghost use Rattle.mon_words.specs.Standing.{board_of, IsFirst};
    ghost use Rattle.mon_gate.specs.Rule.{first_view};
    ghost use Rattle.mon_gate.specs.Seats.{Belongs};

    /// A gate for these threads over these words: the global word, the callback words of six tools, and the words of the
    /// locations. The first pass comes with it.
    pub fn new(alloc: Global, threads: u8, first: &[u64]) -> Result<(Gate, Pass), GateFault>
        requires { IsFirst first.now }
        ensures gate { IfOk result (λ made. Belongs made.1.chair made.0) }
        ensures threads { IfOk result (λ made. made.0.threads ≡ threads) }
        ensures view { IfOk result (λ made. made.1.chair.me.0 ≡ first_view threads (board_of first.now)) }
    {
        let words = table_words(alloc, threads, first)?;
        let plan = Plan {
            threads,
            words: Snapshot::of(&words),
        };
        let (table, chair) = Table::of_words(alloc, &words, &plan)?;
        Ok((Gate { table, threads }, Pass { chair }))
    }
}

// The words of a gate that nobody entered: two and a count for each thread are 0, and then come those of the board.
fn table_words(alloc: Global, threads: u8, first: &[u64]) -> Result<Vec<u64>, AllocError>
    ensures { IfOk result (λ words. words.items ≡ replicate (board_place threads) 0 ++ first.now) }
{
    let mut words = Vec::new(alloc);
    words.push(0)?;
    words.push(0)?;
    for _ in 0..threads {
        words.push(0)?;
    }
    for word in first {
        words.push(*word)?;
    }
    Ok(words)
}
