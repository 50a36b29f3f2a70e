//! What a plan is limited to.

/// The bytes of a plan's text.
pub const MAX_PLAN_BYTES: usize = 262_144;

/// The steps of a thread.
pub const MAX_STEPS: u64 = 200_000;

/// The steps of all threads together, each of which may do as many as the bound of a plan.
pub const MAX_ALL_STEPS: u64 = 400_000;

pub const MAX_THREADS: usize = 8;

pub const MAX_SCRIPTS: usize = 4;

/// The control calls of all sections together.
pub const MAX_CALLS: usize = 256;

/// The lines of a schedule.
pub const MAX_MOVES: usize = 4096;

/// The report lines.
pub const MAX_REPORTS: usize = 16;

/// The characters of a text argument.
pub const MAX_TEXT: usize = 255;

/// The tools of `sys.monitoring`, whose numbers are below this one.
pub const TOOLS: u64 = 6;
