//! Where the words of a gate lie: the gate word, the count of the claimed numbers, a step count for each thread, and the words
//! of the board.

use crate::gate::Gate;
use mon_words::BEFORE_LOCATIONS;

/// The gate word, which counts the attached threads and has the stop bit.
pub(crate) const GATE: usize = 0;

/// The word that counts the claimed numbers.
pub(crate) const CLAIMS: usize = 1;

// The step count of thread 0.
const COUNTS: usize = 2;

// The callback word of tool 0 among the words of the board.
const CALLBACKS: usize = 1;

impl Gate {
    ghost use Rattle.std.specs.Prelude.{◌≡◌, ◌+◌};
    ghost use Rattle.mon_gate.specs.Places as spec;

    /// The step count of a thread.
    pub(crate) fn count_place(&self, thread: u8) -> usize
        ensures { result ≡ spec.count_place thread }
    {
        COUNTS + thread as usize
    }

    /// The global word.
    pub(crate) fn global_place(&self) -> usize
        ensures { result ≡ spec.board_place self.now.threads }
    {
        COUNTS + self.threads as usize
    }

    /// The callback word of a tool.
    pub(crate) fn callbacks_place(&self, tool: u8) -> usize
        ensures { result ≡ spec.word_place self.now.threads (1 + tool) }
    {
        COUNTS + self.threads as usize + CALLBACKS + tool as usize
    }

    /// The word of a location.
    pub(crate) fn location_place(&self, location: u32) -> usize
        ensures { result ≡ spec.location_place self.now.threads location }
    {
        COUNTS + self.threads as usize + BEFORE_LOCATIONS + location as usize
    }
}
