ghost use Rattle.mon_forms.specs.declared.plan.PlanFault.TheVariants as plan_fault;
ghost use Rattle.std.specs.Prelude.{◌≡◌};
ghost use Rattle.mon_forms.specs.Operands as spec;

use mon_history::ControlCall;
use mon_values::value::Value;
use sqlite_items::Items;
use std::alloc::AllocError;
use thiserror::Error;

/// What is to be run and told of.
#[derive(Debug, Drop)]
pub struct Plan {
    pub workload: Workload,
    /// In which order threads and scripts go on where the plan is replayed.
    pub schedule: Items<Move>,
    pub reports: Items<ReportLine>,
}

/// The part of a plan that its threads share while they run.
#[derive(Debug, Drop)]
pub struct Workload {
    /// The most steps that each thread does.
    pub steps: u64,
    pub threads: Items<Start>,
    /// The control calls that are made before any thread runs.
    pub before: Items<ControlCall>,
    /// The control calls that are made while the threads run, script by script.
    pub scripts: Items<Items<ControlCall>>,
}

/// A thread of a plan: the number of the code that it calls, and the arguments.
#[derive(Debug, Drop)]
pub struct Start {
    pub code: u16,
    pub args: Items<Value>,
}

/// A line of a plan's schedule.
#[derive(Clone, Copy, Debug, PartialEq, Eq)]
pub enum Move {
    /// The thread does so many steps, or fewer where it ends or meets the plan's bound.
    Turn(u8, u64),
    /// The script makes its next call, if it has one left.
    Call(u8),
}

/// What of a tool's records is told behind the threads.
#[derive(Clone, Copy, Debug, PartialEq, Eq)]
pub enum ReportKind {
    Coverage,
    Lines,
    Calls,
    Branches,
}

/// All kinds of report.
pub const REPORT_KINDS: [ReportKind; 4] = [
    ReportKind::Coverage,
    ReportKind::Lines,
    ReportKind::Calls,
    ReportKind::Branches,
];

impl ReportKind {
    /// The word for it in a plan and in a report.
    pub fn word(self) -> &'static str
        ensures { result.now ≡ spec.report_word self }
    {
        match self {
            ReportKind::Coverage => "coverage",
            ReportKind::Lines => "lines",
            ReportKind::Calls => "calls",
            ReportKind::Branches => "branches",
        }
    }
}

/// A report that a plan asks for, of one tool.
#[derive(Clone, Copy, Debug, PartialEq, Eq)]
pub struct ReportLine {
    pub kind: ReportKind,
    /// The tool's number, from 0 to 5.
    pub tool: u8,
}

/// What is wrong with a line of a plan.
#[derive(Clone, Copy, Debug, PartialEq, Eq)]
pub enum PlanKind {
    /// A byte that is neither printable ASCII nor a tab, an unknown first word, or another number of words.
    Word,
    /// A number or an argument that is ill-formed or out of its range, or a wrong number of arguments.
    Number,
    /// A function, event, tool, policy or kind of report that there is not.
    Name,
    /// A line that may not stand here.
    Order,
    /// A limit that the line passes.
    TooMany,
}

/// Why a text gave no plan.
#[derive(Clone, Copy, Debug, PartialEq, Eq, Error)]
pub enum PlanFault {
    /// The first faulty line, counted from 1, with the first of its kinds in the order Word, Order, TooMany, Number, Name;
    /// or line 0, where the text is too long.
    #[error("line {0} of the plan is faulty")]
    Faulty(u32, PlanKind),
    #[error("out of memory")]
    Memory,
}

impl From<AllocError> for PlanFault {
    ghost from_gives = { λ _ e. e ≡ plan_fault.Memory };

    fn from(_: AllocError) -> PlanFault {
        PlanFault::Memory
    }
}
