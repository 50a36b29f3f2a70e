ghost use Rattle.std.specs.Prelude.{◌≡◌};
ghost use Rattle.mon_forms.specs.Reports as spec;

use mon_events::Event;

/// What is told of an event behind its code, in a record.
#[derive(Clone, Copy, Debug, PartialEq, Eq)]
pub enum RecordForm {
    /// The offset; for LINE the line.
    Place,
    /// The offset, and a value or an exception.
    Value,
    /// The offset, what is called, and its first argument.
    Call,
    /// The offset, and that which is gone to.
    Jump,
}

/// What is told of an event.
pub fn form_of(event: Event) -> RecordForm
    ensures { result ≡ spec.form_of event }
{
    match event {
        Event::Instruction | Event::Line | Event::PyResume | Event::PyStart => RecordForm::Place,
        Event::Call | Event::CRaise | Event::CReturn => RecordForm::Call,
        Event::Branch | Event::Jump => RecordForm::Jump,
        Event::ExceptionHandled
        | Event::PyReturn
        | Event::PyThrow
        | Event::PyUnwind
        | Event::PyYield
        | Event::Raise
        | Event::Reraise
        | Event::StopIteration => RecordForm::Value,
    }
}
