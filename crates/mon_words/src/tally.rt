//! What contracts count of the calls on the shared words. No value of these types is made when the program runs, and no part
//! of a rule reads them.

use std::collections::LinkedList;

/// A load of a shared word by a thread.
pub enum Load {
    /// Of a location, and the length of the history that was seen then.
    Location(u64, u64),
    /// Of the global word.
    Global,
    /// Of the callback word of a tool.
    Callbacks(u64),
}

/// A thread's try to retire a word: the location, the old word, and whether that was found and gave way.
pub struct Retirement {
    pub location: u64,
    pub old: u64,
    pub done: bool,
}

/// What was done on the shared words, by a thread or by the controller of a stopped world.
pub struct Tally {
    /// The tries to enter.
    pub entries: u64,
    /// The looks whether the world has stopped.
    pub observes: u64,
    /// The polls, and how many of them answered true.
    pub polls: u64,
    pub polled: u64,
    /// The loads by a thread, in order. The word that a disable or a try to retire finds is none.
    pub loads: LinkedList<Load>,
    /// The locations that were read in a stopped world, in order.
    pub reads: LinkedList<u64>,
    /// The tries to retire a word, in order.
    pub retirements: LinkedList<Retirement>,
    /// The disables, and the words of locations that were stored in a stopped world.
    pub disables: u64,
    pub rewrites: u64,
}
