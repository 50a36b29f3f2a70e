//! What the commands read from and write to: a store of named contents, and a sink of bytes, in memory and of the system.
#![tactic(auto)]

mod memory;
mod sink;
mod store;
mod system;

pub use memory::{MemoryFile, MemorySink, MemoryStore};
pub use sink::{Sink, SinkFault, write_all};
pub use store::{READ_LIMIT, Store, StoreFault};
pub use system::{FileStore, StdoutSink};
