//! The registry of tools with its journal.
#![tactic(auto)]

mod calls;
mod changes;
mod control;
mod counting;
mod due;
mod ready;
mod replies;
mod sets;
mod settling;
mod starting;

pub use calls::{change, reply, stop_reply, stops_world};
pub use control::Control;
pub use due::{due_reply, policy_of};
pub use ready::{ControlFault, Prepared, Ready};
pub use replies::refusal;
pub use sets::{is_global, is_local, tool_of};
