//! The text forms: how a plan is read, and how listings and reports are printed.
#![tactic(auto)]

mod calls;
mod draft;
mod heads;
mod journal;
mod limits;
mod lines;
mod listing;
mod opcodes;
mod operands;
mod plan;
mod read;
mod report;
mod rows;
mod sets;
mod telling;
mod texts;
mod threads;

pub use calls::{CallKind, CallParts, Operand};
pub use limits::{
    MAX_ALL_STEPS, MAX_CALLS, MAX_MOVES, MAX_PLAN_BYTES, MAX_REPORTS, MAX_SCRIPTS, MAX_STEPS,
    MAX_TEXT, MAX_THREADS, TOOLS,
};
pub use listing::print_dis;
pub use opcodes::{ArgumentKind, argument_kind, arith_word, cmp_word, op_name};
pub use operands::digits_value;
pub use plan::{Move, Plan, PlanFault, PlanKind, ReportKind, ReportLine, Start, Workload};
pub use read::read_plan;
pub use report::{Report, print_report};
pub use texts::PrintFault;
