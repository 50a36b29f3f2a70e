//! The lines of a thread.

ghost use Rattle.std.specs.Prelude.{◌≡◌, ◌++◌, OnOk, string_bytes, encode_utf8_all};
ghost use Rattle.std.specs.Option.{option_copied};
ghost use Rattle.mon_code.specs.Programs.{Parts};
ghost use Rattle.mon_forms.specs.Reports as spec;
ghost use Rattle.mon_forms.specs.Texts.{AreNames};

use crate::plan::Start;
use crate::telling::{RecordForm, form_of};
use crate::texts::{
    code_names, write_chars, write_code, write_name, write_number, write_spaced, write_value,
};
use mon_code::Program;
use mon_events::Event;
use mon_recorders::{Delivery, Disabled, Outcome, Records, ThreadReport};
use mon_values::text::Text;
use mon_values::value::{Exc, Value};
use sqlite_items::Items;
use std::alloc::{AllocError, Global};

// About as many bytes as the line of a record takes.
const RECORD_BYTES: usize = 24;

/// Writes a line for a text that was printed.
fn write_out(
    alloc: Global,
    out: &mut String,
    program: &Program,
    printed: &Text,
) -> Result<(), AllocError>
    ensures { OnOk result (string_bytes out.new ≡ string_bytes out.old ++ spec.out_line program.now printed.now) }
{
    let value = Value::Text(printed.copy()?);
    out.push_str("out ")?;
    write_value(alloc, out, program, &value)?;
    out.push_str("\n")
}

fn write_outs(
    alloc: Global,
    out: &mut String,
    program: &Program,
    printed: &[Text],
) -> Result<(), AllocError>
    ensures { OnOk result (string_bytes out.new ≡ string_bytes out.old ++ spec.outs_text program.now printed.now) }
{
    for text in printed {
        write_out(alloc, out, program, text)?;
    }
    Ok(())
}

/// Writes a step, a tool and an event.
fn write_event(out: &mut String, step: u64, tool: u8, event: Event) -> Result<(), AllocError>
    ensures { OnOk result (string_bytes out.new ≡ string_bytes out.old ++ spec.event_text step tool event) }
{
    write_number(out, step)?;
    out.push_str(" ")?;
    write_number(out, u64::from(tool))?;
    out.push_str(" ")?;
    out.push_str(event.name())?;
    out.push_str(" ")
}

/// Writes an argument of a call, `MISSING` where there is none.
fn write_second(out: &mut String, second: &[char]) -> Result<(), AllocError>
    ensures { OnOk result (string_bytes out.new ≡ string_bytes out.old ++ spec.second_text second.now) }
{
    if second.is_empty() {
        out.push_str("MISSING")
    } else {
        write_chars(out, second)
    }
}

/// Writes what is called, and its first argument.
fn write_called(out: &mut String, delivery: &Delivery<'_>) -> Result<(), AllocError>
    ensures { OnOk result (string_bytes out.new ≡ string_bytes out.old ++ spec.called_text delivery.now) }
{
    out.push_str(" ")?;
    write_chars(out, delivery.first())?;
    out.push_str(" ")?;
    write_second(out, delivery.second())
}

/// Writes what is told of an event behind its place.
fn write_form(out: &mut String, form: RecordForm, delivery: &Delivery<'_>) -> Result<(), AllocError>
    ensures { OnOk result (string_bytes out.new ≡ string_bytes out.old ++ spec.form_text form delivery.now) }
{
    match form {
        RecordForm::Place => Ok(()),
        RecordForm::Value => {
            out.push_str(" ")?;
            write_chars(out, delivery.first())
        }
        RecordForm::Call => write_called(out, delivery),
        RecordForm::Jump => write_spaced(out, u64::from(delivery.dest())),
    }
}

/// Writes what a record has behind its code.
fn write_arguments(out: &mut String, delivery: &Delivery<'_>) -> Result<(), AllocError>
    ensures { OnOk result (string_bytes out.new ≡ string_bytes out.old ++ spec.arguments_text delivery.now) }
{
    write_spaced(out, u64::from(delivery.at()))?;
    write_form(out, form_of(delivery.event()), delivery)
}

fn write_record(
    out: &mut String,
    names: &[String],
    delivery: &Delivery<'_>,
) -> Result<(), AllocError>
    ensures { OnOk result ((p : Parts) → AreNames p names.now → string_bytes out.new ≡ string_bytes out.old ++ spec.record_line p delivery.now) }
{
    out.push_str("rec ")?;
    write_event(out, delivery.step(), delivery.tool(), delivery.event())?;
    write_code(out, names, delivery.code())?;
    write_arguments(out, delivery)?;
    out.push_str("\n")
}

fn write_records(out: &mut String, names: &[String], records: &Records) -> Result<(), AllocError>
    ensures { OnOk result ((p : Parts) → AreNames p names.now → string_bytes out.new ≡ string_bytes out.old ++ spec.records_text p records.now) }
{
    for index in 0..records.len() {
        write_record(out, names, &records.delivery(index))?;
    }
    Ok(())
}

fn write_disable(out: &mut String, names: &[String], disabled: &Disabled) -> Result<(), AllocError>
    ensures { OnOk result ((p : Parts) → AreNames p names.now → string_bytes out.new ≡ string_bytes out.old ++ spec.disable_line p disabled.now) }
{
    out.push_str("disable ")?;
    write_event(out, disabled.step, disabled.tool, disabled.event)?;
    write_code(out, names, disabled.code)?;
    write_spaced(out, u64::from(disabled.at))?;
    out.push_str("\n")
}

fn write_disables(
    out: &mut String,
    names: &[String],
    disables: &[Disabled],
) -> Result<(), AllocError>
    ensures { OnOk result ((p : Parts) → AreNames p names.now → string_bytes out.new ≡ string_bytes out.old ++ spec.disables_text p disables.now) }
{
    for disabled in disables {
        write_disable(out, names, disabled)?;
    }
    Ok(())
}

fn write_exc(
    alloc: Global,
    out: &mut String,
    program: &Program,
    exc: &Exc,
) -> Result<(), AllocError>
    ensures { OnOk result (string_bytes out.new ≡ string_bytes out.old ++ spec.exc_text program.now exc.now) }
{
    let value = Value::Exc(exc.copy()?);
    write_value(alloc, out, program, &value)
}

fn write_outcome(
    alloc: Global,
    out: &mut String,
    program: &Program,
    outcome: &Outcome,
) -> Result<(), AllocError>
    ensures { OnOk result (string_bytes out.new ≡ string_bytes out.old ++ spec.outcome_text program.now outcome.now) }
{
    match outcome {
        Outcome::Returned(value) => {
            out.push_str("returned ")?;
            write_value(alloc, out, program, value)
        }
        Outcome::Raised(exc) => {
            out.push_str("raised ")?;
            write_exc(alloc, out, program, exc)
        }
        Outcome::Limit => out.push_str("limit"),
    }
}

fn write_end(
    alloc: Global,
    out: &mut String,
    program: &Program,
    report: &ThreadReport,
) -> Result<(), AllocError>
    ensures { OnOk result (string_bytes out.new ≡ string_bytes out.old ++ spec.end_line program.now report.now.steps report.now.outcome) }
{
    out.push_str("end ")?;
    write_number(out, report.steps)?;
    out.push_str(" ")?;
    write_outcome(alloc, out, program, &report.outcome)?;
    out.push_str("\n")
}

/// Writes the name of the code that a thread calls.
fn write_start(out: &mut String, program: &Program, start: Option<&Start>) -> Result<(), AllocError>
    ensures { OnOk result (string_bytes out.new ≡ string_bytes out.old ++ spec.start_text program.now (option_copied start.entry)) }
{
    match start {
        None => Ok(()),
        Some(start) => write_name(out, program.names.as_slice(), start.code as usize),
    }
}

/// Writes the first line of a thread.
fn write_head(
    out: &mut String,
    program: &Program,
    starts: &Items<Start>,
    number: usize,
) -> Result<(), AllocError>
    ensures { OnOk result (string_bytes out.new ≡ string_bytes out.old ++ spec.thread_line program.now starts.now number) }
{
    out.push_str("thread ")?;
    write_number(out, number as u64)?;
    out.push_str(" ")?;
    write_start(out, program, starts.get(number))?;
    out.push_str("\n")
}

/// Writes the records and the disables of a thread.
fn write_told(
    alloc: Global,
    out: &mut String,
    program: &Program,
    report: &ThreadReport,
) -> Result<(), AllocError>
    ensures { OnOk result (string_bytes out.new ≡ string_bytes out.old ++ spec.records_text program.now report.now.records ++ spec.disables_text program.now report.now.disables) }
{
    let names = code_names(alloc, program)?;
    let records = &report.records;
    out.reserve(records.len().saturating_mul(RECORD_BYTES))?;
    write_records(out, names.as_slice(), records)?;
    write_disables(out, names.as_slice(), report.disables.as_slice())
}

fn write_thread(
    alloc: Global,
    out: &mut String,
    program: &Program,
    starts: &Items<Start>,
    number: usize,
    report: &ThreadReport,
) -> Result<(), AllocError>
    ensures { OnOk result (string_bytes out.new ≡ string_bytes out.old ++ spec.thread_text program.now starts.now number report.now) }
{
    write_head(out, program, starts, number)?;
    write_outs(alloc, out, program, report.printed.as_slice())?;
    write_told(alloc, out, program, report)?;
    write_end(alloc, out, program, report)
}

/// Writes the threads, by their numbers.
pub fn write_threads(
    alloc: Global,
    out: &mut String,
    program: &Program,
    starts: &Items<Start>,
    threads: &[ThreadReport],
) -> Result<(), AllocError>
    ensures { OnOk result (string_bytes out.new ≡ string_bytes out.old ++ spec.threads_text program.now starts.now threads.now) }
{
    for (number, report) in threads.iter().enumerate() {
        write_thread(alloc, out, program, starts, number, report)?;
    }
    Ok(())
}
