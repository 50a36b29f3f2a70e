//! The commands of the program, over a store of named contents and a sink of bytes.
#![tactic(auto)]

mod command;
mod fault;
mod laws;
mod reply;
mod serial_host;
mod source;
mod status;
mod threaded_host;
mod threaded_reply;

pub use command::{COMMANDS, Command, MAX_NUMBER, Operands, Request, requested, usage};
pub use fault::ReplyFault;
pub use laws::{statuses_agree, texts_agree};
pub use serial_host::host_serial;
pub use source::module;
pub use status::Status;
pub use threaded_host::{Unheld, host};
