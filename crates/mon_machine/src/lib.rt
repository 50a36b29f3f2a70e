//! The plain machine: its state, one step with all its events, and a run. No tools and no words stand here.
#![tactic(auto)]

mod laws;
mod mode;

pub use laws::{
    advances_add_up, advances_continue, advances_join, advances_stand_at_steps, bare_runs,
    depths_as_recorded, events_name_codes, goes_on_by_one, last_lines_are_for_events,
    limits_are_bounds, line_marks, never_stuck, pools_grow_by_one, proper_events, runs_add_up,
    worked_advance,
};
pub use mode::{Answer, Ending, Mode};
