//! What the calls of a plain handle or of a halted plain board leave as it was. No value of these types is made when the
//! program runs.

use mon_words::Mark;
use std::collections::LinkedList;

/// Of a thread's handle: which board it borrows, its number of threads, the stored counts of the other threads, and the marks
/// that are not disables of its thread.
pub struct PlainRest {
    pub borrow: u64,
    pub threads: u64,
    pub counts: LinkedList<u64>,
    pub marks: LinkedList<Mark>,
}

/// Of a halted board: which board it borrows, and each thread's stored count.
pub struct PlainHaltedRest {
    pub borrow: u64,
    pub counts: LinkedList<u64>,
}
