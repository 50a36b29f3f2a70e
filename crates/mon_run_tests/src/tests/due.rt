use mon_events::Event;
use mon_history::{Counts, Journal, Policy, Reply};
use mon_recorders::{Disabled, Outcome, Records, ThreadReport};
use mon_values::value::Value;

/// A reply without a name.
#[derive(Clone, Copy)]
pub enum Answer {
    Nothing,
    Set(u32),
    WasNothing,
}

impl Answer {
    fn is(self, reply: &Reply) -> bool {
        match reply {
            Reply::Nothing => matches!(self, Answer::Nothing),
            Reply::Set(set) => matches!(self, Answer::Set(bits) if set.0 == bits),
            Reply::Was(Policy::Nothing) => matches!(self, Answer::WasNothing),
            _ => false,
        }
    }
}

/// A call's reply, and the threads' step counts where it stopped the world.
pub type CallDue = (Answer, Option<&'static [u64]>);

/// A record or a disable: its step, tool, event, code, and line or offset.
pub type Noted = (u64, u8, Event, u16, u32);

/// What is reported of a thread.
pub struct ThreadDue {
    pub steps: u64,
    /// The integer that it returned; none where it met the bound.
    pub returned: Option<i64>,
    pub records: &'static [Noted],
    pub disables: &'static [Noted],
}

fn is_stop(stops: Option<&Counts>, due: Option<&[u64]>) -> bool {
    match stops {
        None => due.is_none(),
        Some(counts) => due == Some(counts.as_slice()),
    }
}

/// Whether these calls were made, in this order.
pub fn are_calls(journal: &Journal, due: &[CallDue]) -> bool {
    for (number, (answer, stops)) in due.iter().enumerate() {
        let Some(line) = journal.get(number) else {
            return false;
        };
        if !answer.is(&line.reply) || !is_stop(line.stops.as_ref(), *stops) {
            return false;
        }
    }
    journal.len() == due.len()
}

fn are_records(records: &Records, due: &[Noted]) -> bool {
    for (number, noted) in due.iter().enumerate() {
        let Some(record) = records.get(number) else {
            return false;
        };
        let told: Noted = (
            record.step(),
            record.tool(),
            record.event(),
            record.code(),
            record.at(),
        );
        if told != *noted {
            return false;
        }
    }
    records.len() == due.len()
}

fn are_disables(disables: &[Disabled], due: &[Noted]) -> bool {
    for (number, noted) in due.iter().enumerate() {
        let Some(disabled) = disables.get(number) else {
            return false;
        };
        let told: Noted = (
            disabled.step,
            disabled.tool,
            disabled.event,
            disabled.code,
            disabled.at,
        );
        if told != *noted {
            return false;
        }
    }
    disables.len() == due.len()
}

fn is_outcome(outcome: &Outcome, returned: Option<i64>) -> bool {
    match outcome {
        Outcome::Returned(Value::Int(number)) => returned == Some(*number),
        Outcome::Limit => returned.is_none(),
        _ => false,
    }
}

fn is_thread(report: &ThreadReport, due: &ThreadDue) -> bool {
    report.steps == due.steps
        && is_outcome(&report.outcome, due.returned)
        && are_records(&report.records, due.records)
        && are_disables(report.disables.as_slice(), due.disables)
}

/// Whether these are the reports of the threads.
pub fn are_threads(reports: &[ThreadReport], due: &[ThreadDue]) -> bool {
    for (number, thread) in due.iter().enumerate() {
        let Some(report) = reports.get(number) else {
            return false;
        };
        if !is_thread(report, thread) {
            return false;
        }
    }
    reports.len() == due.len()
}
