//! A list and a box with several owners, which contracts see as what they hold.
#![tactic(auto)]

mod shared;
#[cfg(test)]
mod tests;

pub use shared::{SharedBox, SharedItems};
