//! The frames of a thread, its generators and its iterators.
#![tactic(auto)]

mod call;
mod fault;
mod frame;
mod generator;
mod handling;
mod in_place;
mod iteration;
mod stack;

pub use call::{By, Call, Origin};
pub use fault::{FrameFault, IterFault, ResumeFault};
pub use frame::{Frame, Locals, Operands};
pub use generator::{Closing, Generator};
pub use handling::Handling;
pub use iteration::{Iteration, item_at, item_count};
pub use stack::{Frames, MAX_FRAMES, handler_of};
