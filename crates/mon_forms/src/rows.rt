//! The lines of the reports that a plan asks for.

ghost use Rattle.std.specs.Prelude.{◌≡◌, ◌++◌, IfOk, OnOk, string_bytes};
ghost use Rattle.mon_code.specs.Programs.{Parts};
ghost use Rattle.mon_forms.specs.Rows as spec;
ghost use Rattle.mon_forms.specs.Texts.{AreNames};

use crate::plan::{ReportKind, ReportLine};
use crate::texts::{write_chars, write_code, write_numbers, write_spaced};
use mon_recorders::{Row, ThreadReport, branches, calls, coverage, lines};
use sqlite_items::Items;
use std::alloc::{AllocError, Global};

/// Writes what a report is of: its kind and the tool.
fn write_asked(out: &mut String, line: ReportLine) -> Result<(), AllocError>
    ensures { OnOk result (string_bytes out.new ≡ string_bytes out.old ++ spec.asked_text line) }
{
    out.push_str(line.kind.word())?;
    write_spaced(out, u64::from(line.tool))?;
    out.push_str(" ")
}

/// Writes what is called, behind a space; nothing where a row has none.
fn write_callable(out: &mut String, callable: &[char]) -> Result<(), AllocError>
    ensures { OnOk result (string_bytes out.new ≡ string_bytes out.old ++ spec.callable_text callable.now) }
{
    if callable.is_empty() {
        return Ok(());
    }
    out.push_str(" ")?;
    write_chars(out, callable)
}

/// Writes what a row has behind its code.
fn write_counted(out: &mut String, row: &Row) -> Result<(), AllocError>
    ensures { OnOk result (string_bytes out.new ≡ string_bytes out.old ++ spec.counted_text row.now) }
{
    write_callable(out, row.name.chars())?;
    write_numbers(out, row.numbers.as_slice())?;
    out.push_str("\n")
}

fn write_row(
    out: &mut String,
    names: &[String],
    line: ReportLine,
    row: &Row,
) -> Result<(), AllocError>
    ensures { OnOk result ((p : Parts) → AreNames p names.now → string_bytes out.new ≡ string_bytes out.old ++ spec.row_line p line row.now) }
{
    write_asked(out, line)?;
    write_code(out, names, row.code)?;
    write_counted(out, row)
}

fn write_rows(
    out: &mut String,
    names: &[String],
    line: ReportLine,
    rows: &[Row],
) -> Result<(), AllocError>
    ensures { OnOk result ((p : Parts) → AreNames p names.now → string_bytes out.new ≡ string_bytes out.old ++ spec.rows_text p line rows.now) }
{
    for row in rows {
        write_row(out, names, line, row)?;
    }
    Ok(())
}

/// The rows of a report, over all threads.
fn rows_of(
    alloc: Global,
    line: ReportLine,
    threads: &[ThreadReport],
) -> Result<Items<Row>, AllocError>
    ensures { IfOk result (λ rows. rows ≡ spec.rows_of line threads.now) }
{
    match line.kind {
        ReportKind::Coverage => coverage(alloc, threads, line.tool),
        ReportKind::Lines => lines(alloc, threads, line.tool),
        ReportKind::Calls => calls(alloc, threads, line.tool),
        ReportKind::Branches => branches(alloc, threads, line.tool),
    }
}

/// Writes the rows of a report.
fn write_report(
    alloc: Global,
    out: &mut String,
    names: &[String],
    threads: &[ThreadReport],
    line: ReportLine,
) -> Result<(), AllocError>
    ensures { OnOk result ((p : Parts) → AreNames p names.now → string_bytes out.new ≡ string_bytes out.old ++ spec.report_rows p threads.now line) }
{
    let rows = rows_of(alloc, line, threads)?;
    write_rows(out, names, line, rows.as_slice())
}

/// Writes the rows of each report in turn.
pub fn write_reports(
    alloc: Global,
    out: &mut String,
    names: &[String],
    threads: &[ThreadReport],
    asked: &[ReportLine],
) -> Result<(), AllocError>
    ensures { OnOk result ((p : Parts) → AreNames p names.now → string_bytes out.new ≡ string_bytes out.old ++ spec.reports_text p threads.now asked.now) }
{
    for line in asked {
        write_report(alloc, out, names, threads, *line)?;
    }
    Ok(())
}
