//! The summary of a run.

ghost use Rattle.std.specs.Prelude.{◌≡◌, ◌++◌, IfOk, OnOk, string_bytes, encode_utf8_all};
ghost use Rattle.mon_forms.specs.Reports.{outcome_text};
ghost use Rattle.mon_forms.specs.Texts.{value_text};
ghost use Rattle.mon_gen.specs.Summaries as spec;

use mon_code::Program;
use mon_recorders::{Outcome, ThreadReport};
use mon_values::print::repr;
use mon_values::value::Value;
use std::alloc::{AllocError, Global};

// Writes characters as UTF-8.
fn write_chars(out: &mut String, chars: &[char]) -> Result<(), AllocError>
    ensures { OnOk result (string_bytes out.new ≡ string_bytes out.old ++ encode_utf8_all chars.now) }
{
    for c in chars {
        out.push(*c)?;
    }
    Ok(())
}

// Writes the `repr` of a value, with the names of the program's functions.
fn write_value(
    alloc: Global,
    out: &mut String,
    program: &Program,
    value: &Value,
) -> Result<(), AllocError>
    ensures { OnOk result (string_bytes out.new ≡ string_bytes out.old ++ value_text program.now value.now) }
{
    let text = repr(alloc, value, program.names.as_slice())?;
    write_chars(out, text.chars())
}

// Writes how a thread ended.
fn write_outcome(
    alloc: Global,
    out: &mut String,
    program: &Program,
    outcome: &Outcome,
) -> Result<(), AllocError>
    ensures { OnOk result (string_bytes out.new ≡ string_bytes out.old ++ outcome_text program.now outcome.now) }
{
    match outcome {
        Outcome::Returned(value) => {
            out.push_str("returned ")?;
            write_value(alloc, out, program, value)
        }
        Outcome::Raised(exc) => {
            out.push_str("raised ")?;
            write_value(alloc, out, program, &Value::Exc(exc.copy()?))
        }
        Outcome::Limit => out.push_str("limit"),
    }
}

// Writes the counts of a thread, and how it ended.
fn write_thread(
    alloc: Global,
    out: &mut String,
    program: &Program,
    number: usize,
    report: &ThreadReport,
) -> Result<(), AllocError>
    ensures { OnOk result (string_bytes out.new ≡ string_bytes out.old ++ spec.summary_line program.now number report.now) }
{
    let steps = report.steps;
    let records = report.records.len();
    write!(out, "thread {number} steps {steps} records {records} ")?;
    write_outcome(alloc, out, program, &report.outcome)?;
    out.push_str("\n")
}

/// The text of a run's summary: a line for each thread, by its number, with its number of steps, the number of its records, and how
/// it ended.
pub fn print_summary(
    alloc: Global,
    program: &Program,
    threads: &[ThreadReport],
) -> Result<String, AllocError>
    ensures { IfOk result (λ text. string_bytes text ≡ spec.summary_text program.now threads.now) }
{
    let mut out = String::new(alloc);
    for (number, report) in threads.iter().enumerate() {
        write_thread(alloc, &mut out, program, number, report)?;
    }
    Ok(out)
}
