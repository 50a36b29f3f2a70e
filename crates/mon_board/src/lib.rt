//! Two boards of the shared words: that of a gate, and one of a single thread.
#![tactic(auto)]

mod plain;
mod plain_halted;
mod plain_handle;
mod plain_play;
mod plain_rest;
mod plain_view;
mod rest;
mod table;

pub use plain::{BoardFault, PlainBoard};
pub use plain_halted::PlainHalted;
pub use plain_handle::PlainHandle;
pub use plain_play::PlainRule;
pub use plain_rest::{PlainHaltedRest, PlainRest};
pub use plain_view::{PlainPlan, PlainView};
pub use rest::{HaltedTableRest, TableRest};
pub use table::{HaltedTable, TableHandle};

#[cfg(test)]
mod tests;
