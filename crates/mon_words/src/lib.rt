//! The shared words of the patched code: the bits of a location's word, the history of the words, what an interpreter
//! thread does to them, and what a controller does to them while the world is stopped.
#![tactic(auto)]

mod halted;
mod handle;
mod history;
mod laws;
mod tally;
mod word;

pub use halted::Halted;
pub use handle::{Handle, WorldStopped};
pub use history::{Board, Cell, Mark, Noted, Written};
pub use laws::{calls_add_up, stays_add_up};
pub use tally::{Load, Retirement, Tally};
pub use word::{
    BEFORE_LOCATIONS, Parts, bit_places, enabled, first_words, form_in_place, has_bit, is_quiet,
    mask, normal, pack, unpack,
};

#[cfg(test)]
mod tests;
