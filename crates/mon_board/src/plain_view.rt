//! What the one seat of a plain board knows. No value of these types is made when the program runs, but for [`PlainPlan`].

use mon_words::{Board, Mark, Noted, Tally, Written};
use std::alloc::Global;
use std::collections::LinkedList;
use std::snapshot::Snapshot;

/// What the seat knows.
pub struct PlainView {
    /// The number of threads and the first board.
    pub threads: u64,
    pub first: Board,
    /// The history of the words.
    pub seen: LinkedList<Mark>,
    /// The stored step count of each thread.
    pub counts: LinkedList<u64>,
    /// The thread whose handle was made last, and whether it is attached.
    pub current: u64,
    pub attached: bool,
    /// While the board is halted: the counts read and the words stored since, the last one first.
    pub noted: LinkedList<Noted>,
    pub written: LinkedList<Written>,
    /// What was done on the board, by all threads and while it was halted.
    pub tally: Tally,
}

/// What the table is told when it is made: the number of threads, and all its words.
#[derive(Drop)]
pub struct PlainPlan {
    pub threads: u8,
    pub words: Snapshot<Vec<u64, Global>>,
}
