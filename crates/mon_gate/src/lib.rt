//! The gate that interpreter threads and a controller share with the words of the patched code: one table of atomic words
//! under one rule, and the states of those who use it.
#![tactic(auto)]

mod controller;
mod gate;
mod laws;
mod pass;
mod place;
mod play;
mod seat;
mod turn;
mod view;
mod wait;

pub use gate::{Asked, Gate, GateFault, Idle, NotYet, Pass, Seat, Stopped};
pub use laws::stopped_is_alone;
pub use pass::{claim, join, settle, split};
pub use play::GateRule;
pub use turn::idle;
pub use view::{Ended, Phase, Plan, View};
pub use wait::enter;

#[cfg(test)]
mod tests;
