//! Runs of a plan.
#![tactic(auto)]

mod alone;
mod beat;
mod controller;
mod fault;
mod gather;
mod laws;
mod lent;
mod moves;
mod script_calls;
mod serial_run;
mod tasks;
mod thread_task;
mod threads_run;
mod worker;

pub use beat::Beat;
pub use fault::RunFault;
pub use laws::{
    events_of_plans_are_proper, legal_reports_name_codes, serial_runs_follow_plans,
    steps_of_legal_reports_rise, worked_serial_run,
};
pub use serial_run::serial;
pub use threads_run::{threads, threads_on};
