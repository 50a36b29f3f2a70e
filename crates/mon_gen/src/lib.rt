//! Programs of any size with a plan, to measure a whole run by, and the summary of the run.
#![tactic(auto)]

mod laws;
mod module;
mod plan;
mod summary;

pub use laws::{generated_plans_fit, generated_programs_have_no_fault};
pub use module::{MAX_LOOPS, generated_module};
pub use plan::generated_plan;
pub use summary::print_summary;
