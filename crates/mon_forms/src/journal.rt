//! The lines of the calls that were made.

ghost use Rattle.std.specs.Prelude.{◌≡◌, ◌++◌, OnOk, codes, string_bytes};
ghost use Rattle.std.specs.Fmt.{decimal, signed_decimal};
ghost use Rattle.mon_code.specs.Programs.{Parts};
ghost use Rattle.mon_forms.specs.Reports as spec;
ghost use Rattle.mon_forms.specs.Texts.{AreNames};

use crate::calls::{CallKind, CallParts, Operand};
use crate::operands::policy_word;
use crate::sets::write_set;
use crate::texts::{write_chars, write_code, write_integer, write_number, write_numbers};
use mon_history::{ControlCall, Counts, JournalLine, Reply, Who};
use mon_values::text::Text;
use std::alloc::AllocError;

impl CallKind {
    ghost use Rattle.std.specs.Prelude.{◌≡◌};
    ghost use Rattle.mon_forms.specs.Reports as spec;

    /// The name of a call.
    pub fn of(call: &ControlCall) -> CallKind
        ensures { result ≡ spec.kind_of call.now }
    {
        match call {
            ControlCall::UseToolId { .. } => CallKind::UseToolId,
            ControlCall::FreeToolId { .. } => CallKind::FreeToolId,
            ControlCall::GetTool { .. } => CallKind::GetTool,
            ControlCall::SetEvents { .. } => CallKind::SetEvents,
            ControlCall::GetEvents { .. } => CallKind::GetEvents,
            ControlCall::SetLocalEvents { .. } => CallKind::SetLocalEvents,
            ControlCall::GetLocalEvents { .. } => CallKind::GetLocalEvents,
            ControlCall::RegisterCallback { .. } => CallKind::RegisterCallback,
            ControlCall::RestartEvents => CallKind::RestartEvents,
        }
    }
}

impl CallParts {
    ghost use Rattle.std.specs.Prelude.{◌≡◌, IfOk};
    ghost use Rattle.mon_forms.specs.Reports as spec;

    /// The operands of a call.
    pub fn of(call: &ControlCall) -> Result<CallParts, AllocError>
        ensures { IfOk result (λ parts. parts ≡ spec.parts_of call.now) }
    {
        let mut parts = CallParts::new();
        match call {
            ControlCall::UseToolId { id, name } => {
                parts.id = *id;
                parts.name = name.copy()?;
            }
            ControlCall::FreeToolId { id }
            | ControlCall::GetTool { id }
            | ControlCall::GetEvents { id } => parts.id = *id,
            ControlCall::SetEvents { id, set } => {
                parts.id = *id;
                parts.set = *set;
            }
            ControlCall::SetLocalEvents { id, code, set } => {
                parts.id = *id;
                parts.code = *code;
                parts.set = *set;
            }
            ControlCall::GetLocalEvents { id, code } => {
                parts.id = *id;
                parts.code = *code;
            }
            ControlCall::RegisterCallback { id, event, policy } => {
                parts.id = *id;
                parts.set = *event;
                parts.policy = *policy;
            }
            ControlCall::RestartEvents => {}
        }
        Ok(parts)
    }
}

/// Writes an operand of a call, behind a space.
fn write_operand(
    out: &mut String,
    names: &[String],
    parts: &CallParts,
    operand: Operand,
) -> Result<(), AllocError>
    ensures { OnOk result ((p : Parts) → AreNames p names.now → string_bytes out.new ≡ string_bytes out.old ++ spec.operand_text p parts.now operand) }
{
    out.push_str(" ")?;
    match operand {
        Operand::Id => write_integer(out, parts.id),
        Operand::Name => write_chars(out, parts.name.chars()),
        Operand::Code => write_code(out, names, parts.code),
        Operand::Set => write_set(out, parts.set),
        Operand::Policy => out.push_str(policy_word(parts.policy)),
    }
}

fn write_operands(
    out: &mut String,
    names: &[String],
    parts: &CallParts,
    operands: &[Operand],
) -> Result<(), AllocError>
    ensures { OnOk result ((p : Parts) → AreNames p names.now → string_bytes out.new ≡ string_bytes out.old ++ spec.operands_text p parts.now operands.now) }
{
    for operand in operands {
        write_operand(out, names, parts, *operand)?;
    }
    Ok(())
}

/// Writes the name of a call, and its operands.
fn write_parts(
    out: &mut String,
    names: &[String],
    kind: CallKind,
    parts: &CallParts,
) -> Result<(), AllocError>
    ensures { OnOk result ((p : Parts) → AreNames p names.now → string_bytes out.new ≡ string_bytes out.old ++ spec.parts_text p kind parts.now) }
{
    out.push_str(kind.word())?;
    write_operands(out, names, parts, kind.operands())
}

/// Writes a call as a plan has it.
fn write_call(out: &mut String, names: &[String], call: &ControlCall) -> Result<(), AllocError>
    ensures { OnOk result ((p : Parts) → AreNames p names.now → string_bytes out.new ≡ string_bytes out.old ++ spec.call_text p call.now) }
{
    let parts = CallParts::of(call)?;
    write_parts(out, names, CallKind::of(call), &parts)
}

/// Writes a name in single quotes.
fn write_quoted(out: &mut String, name: &Text) -> Result<(), AllocError>
    ensures { OnOk result (string_bytes out.new ≡ string_bytes out.old ++ spec.quoted_text name.now) }
{
    out.push_str("'")?;
    write_chars(out, name.chars())?;
    out.push_str("'")
}

fn write_tool_in_use(out: &mut String, name: &Text) -> Result<(), AllocError>
    ensures { OnOk result (string_bytes out.new ≡ string_bytes out.old ++ codes "ToolInUse(" ++ spec.quoted_text name.now ++ codes ")") }
{
    out.push_str("ToolInUse(")?;
    write_quoted(out, name)?;
    out.push_str(")")
}

fn write_bad_tool(out: &mut String, id: i64) -> Result<(), AllocError>
    ensures { OnOk result (string_bytes out.new ≡ string_bytes out.old ++ codes "BadTool(" ++ signed_decimal id ++ codes ")") }
{
    out.push_str("BadTool(")?;
    write_integer(out, id)?;
    out.push_str(")")
}

fn write_bad_event(out: &mut String, set: u32) -> Result<(), AllocError>
    ensures { OnOk result (string_bytes out.new ≡ string_bytes out.old ++ codes "BadEvent(" ++ decimal set ++ codes ")") }
{
    out.push_str("BadEvent(")?;
    write_number(out, u64::from(set))?;
    out.push_str(")")
}

fn write_reply(out: &mut String, reply: &Reply) -> Result<(), AllocError>
    ensures { OnOk result (string_bytes out.new ≡ string_bytes out.old ++ spec.reply_text reply.now) }
{
    match reply {
        Reply::Nothing => out.push_str("None"),
        Reply::Name(name) => write_quoted(out, name),
        Reply::Set(set) => write_set(out, *set),
        Reply::Was(policy) => out.push_str(policy_word(*policy)),
        Reply::BadTool(id) => write_bad_tool(out, *id),
        Reply::ToolInUse(name) => write_tool_in_use(out, name),
        Reply::BadEvent(set) => write_bad_event(out, set.0),
    }
}

fn write_who(out: &mut String, who: Who) -> Result<(), AllocError>
    ensures { OnOk result (string_bytes out.new ≡ string_bytes out.old ++ spec.who_text who) }
{
    match who {
        Who::Before => out.push_str("before"),
        Who::Script(script) => {
            out.push_str("script ")?;
            write_number(out, u64::from(script))
        }
    }
}

/// Writes the threads' counts of steps, where the call stopped the world.
fn write_stops(out: &mut String, stops: &Option<Counts>) -> Result<(), AllocError>
    ensures { OnOk result (string_bytes out.new ≡ string_bytes out.old ++ spec.stops_text stops.now) }
{
    match stops {
        None => Ok(()),
        Some(counts) => {
            out.push_str(" at")?;
            write_numbers(out, counts.as_slice())
        }
    }
}

/// Writes a call behind who made it.
fn write_made(out: &mut String, names: &[String], line: &JournalLine) -> Result<(), AllocError>
    ensures { OnOk result ((p : Parts) → AreNames p names.now → string_bytes out.new ≡ string_bytes out.old ++ spec.made_text p line.now) }
{
    out.push_str("journal ")?;
    write_who(out, line.who)?;
    out.push_str(" ")?;
    write_call(out, names, &line.call)
}

/// Writes what a call was answered, and where it stopped the world.
fn write_answer(out: &mut String, reply: &Reply, stops: &Option<Counts>) -> Result<(), AllocError>
    ensures { OnOk result (string_bytes out.new ≡ string_bytes out.old ++ spec.answer_text reply.now stops.now) }
{
    out.push_str(" = ")?;
    write_reply(out, reply)?;
    write_stops(out, stops)?;
    out.push_str("\n")
}

fn write_journal_line(
    out: &mut String,
    names: &[String],
    line: &JournalLine,
) -> Result<(), AllocError>
    ensures { OnOk result ((p : Parts) → AreNames p names.now → string_bytes out.new ≡ string_bytes out.old ++ spec.journal_line p line.now) }
{
    write_made(out, names, line)?;
    write_answer(out, &line.reply, &line.stops)
}

/// Writes a line for each call.
pub fn write_lines(
    out: &mut String,
    names: &[String],
    lines: &[JournalLine],
) -> Result<(), AllocError>
    ensures { OnOk result ((p : Parts) → AreNames p names.now → string_bytes out.new ≡ string_bytes out.old ++ spec.journal_text p lines.now) }
{
    for line in lines {
        write_journal_line(out, names, line)?;
    }
    Ok(())
}
