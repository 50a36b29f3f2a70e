//! What each seat of the table knows. No value of these types is made when the program runs, but for [`Plan`].

use mon_words::{Board, Mark, Noted, Tally, Written};
use std::alloc::Global;
use std::collections::LinkedList;
use std::snapshot::Snapshot;

/// What a seat is doing. The first pass of a gate is `Idle`, `Asked` or `Stopped`, every other live seat `Plain`, `Out`,
/// `Attached` or `Retreating`. A seat that was joined into another is `Spent`.
#[derive(Clone, Copy)]
pub enum Phase {
    Plain,
    Out,
    Attached,
    Retreating,
    Idle,
    Asked,
    Stopped,
    Spent,
}

/// A thread number that ended: its disables, its last count, the history that it had seen, and its tally.
pub struct Ended {
    pub number: u64,
    pub marks: LinkedList<Mark>,
    pub last: u64,
    pub seen: LinkedList<Mark>,
    pub tally: Tally,
}

/// What a seat knows.
pub struct View {
    pub phase: Phase,
    /// The thread number and the stored step count, where the seat has claimed a number.
    pub number: u64,
    pub stored: u64,
    /// How many numbers the seat may still claim or hand on.
    pub tickets: u64,
    /// The number of threads and the first board, the same in all live views.
    pub threads: u64,
    pub first: Board,
    /// The history of the words as far as it was seen.
    pub seen: LinkedList<Mark>,
    /// The seat's own disables; the boards of the first pass.
    pub mine: LinkedList<Mark>,
    /// The numbers that ended in this seat.
    pub ended: LinkedList<Ended>,
    /// While stopped: the counts read and the words stored since the stop, the last one first.
    pub noted: LinkedList<Noted>,
    pub written: LinkedList<Written>,
    /// The word that was found last where the seat looked for a stop, entered, polled or observed.
    pub found: u64,
    /// What was done under the seat's number, or by the controller.
    pub tally: Tally,
}

/// What the table is told when it is made: the number of threads, and all its words.
#[derive(Drop)]
pub struct Plan {
    pub threads: u8,
    pub words: Snapshot<Vec<u64, Global>>,
}
