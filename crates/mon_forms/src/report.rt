ghost use Rattle.std.specs.Prelude.{◌≡◌, ◌++◌, IfOk, OnOk, string_bytes};
ghost use Rattle.mon_forms.specs.Reports as spec;
ghost use Rattle.mon_forms.specs.Rows.{reports_text};

use crate::journal::write_lines;
use crate::plan::{Plan, ReportLine};
use crate::rows::write_reports;
use crate::texts::{PrintFault, code_names};
use crate::threads::write_threads;
use mon_code::Program;
use mon_history::Journal;
use mon_recorders::ThreadReport;
use sqlite_items::Items;
use std::alloc::{AllocError, Global};

/// What a run of a plan has to tell: the control calls that were made, with their replies, and of each thread, by its
/// number, what it printed, recorded and disabled, and how it ended.
#[derive(Debug, Drop)]
pub struct Report {
    pub journal: Journal,
    pub threads: Items<ThreadReport>,
}

fn write_calls(
    alloc: Global,
    out: &mut String,
    program: &Program,
    journal: &Journal,
) -> Result<(), AllocError>
    ensures { OnOk result (string_bytes out.new ≡ string_bytes out.old ++ spec.journal_text program.now journal.now.lines) }
{
    let names = code_names(alloc, program)?;
    write_lines(out, names.as_slice(), journal.as_slice())
}

fn write_asked(
    alloc: Global,
    out: &mut String,
    program: &Program,
    threads: &[ThreadReport],
    asked: &[ReportLine],
) -> Result<(), AllocError>
    ensures { OnOk result (string_bytes out.new ≡ string_bytes out.old ++ reports_text program.now threads.now asked.now) }
{
    let names = code_names(alloc, program)?;
    write_reports(alloc, out, names.as_slice(), threads, asked)
}

/// The text of a report, as UTF-8: a line for each call of the journal, then each thread by its number, then the rows of each
/// report that the plan asks for, over all threads. PrintFault: there is not enough memory.
pub fn print_report(
    alloc: Global,
    program: &Program,
    plan: &Plan,
    report: &Report,
) -> Result<Vec<u8>, PrintFault>
    ensures { IfOk result (λ v. v.items ≡ spec.report_text program.now plan.now report.now) }
{
    let mut out = String::new(alloc);
    write_calls(alloc, &mut out, program, &report.journal)?;
    let starts = &plan.workload.threads;
    let threads = report.threads.as_slice();
    write_threads(alloc, &mut out, program, starts, threads)?;
    write_asked(alloc, &mut out, program, threads, plan.reports.as_slice())?;
    Ok(out.into_bytes())
}
