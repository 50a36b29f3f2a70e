//! The interpreter over patched words: what it does is the plain machine's run, and its records are the events that the
//! words let through.
#![tactic(auto)]

mod answer;
mod call;
mod done;
mod events;
mod giving;
mod global;
mod handling;
mod iterate;
mod jump;
mod listen;
mod load;
mod machine;
mod operate;
mod operator;
mod perform;
mod quick;
mod resume;
mod sequence;
mod settle;
mod shows;
mod step;
mod thread;

pub use thread::{AdvanceFault, EntryFault, Stop, Thread};
