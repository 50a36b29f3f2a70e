//! The words that are due for a configuration, and the stores that bring them about in a stopped world.
#![tactic(auto)]

mod applying;
mod bits;
mod laws;
mod refreshing;
mod walking;
mod wanting;
mod words;

pub use applying::{apply, apply_restart};
pub use bits::local_set_of;
pub use laws::first_words_stand;
pub use walking::{Reach, walk};
pub use wanting::{want, want_bits};
pub use words::{Words, callback_word, change_words, globals_word, set_words, words_of};
