use mon_events::Event;
use std::marker::Model;

/// One delivery of an event to a tool, read where it is kept. Contracts see it as its [`Record`](crate::Record).
#[derive(Debug, Drop)]
pub struct Delivery<'a> {
    pub(crate) step: u64,
    pub(crate) tool: u8,
    pub(crate) event: Event,
    pub(crate) code: u16,
    pub(crate) at: u32,
    pub(crate) dest: u32,
    pub(crate) first: &'a [char],
    pub(crate) second: &'a [char],
}

impl<'a> Model for Delivery<'a> {
    ghost use Rattle.mon_recorders.specs.declared.record.Record.{Record as RecordOf};
    ghost use Rattle.mon_recorders.specs.contracts.record.Record as a_record;

    ghost Value = { RecordOf };

    ghost coded = { a_record.the_row.coded };

    ghost view = { λ d. record { step = d.step; tool = d.tool; event = d.event; code = d.code; at = d.at; dest = d.dest; first = d.first.now; second = d.second.now } };
}

impl<'a> Delivery<'a> {
    ghost use Rattle.std.specs.Prelude.{◌≡◌};

    /// The number of the step in its thread, counted from 0.
    pub fn step(&self) -> u64
        ensures { result ≡ self.now.step }
    {
        self.step
    }

    /// The tool that it was delivered to.
    pub fn tool(&self) -> u8
        ensures { result ≡ self.now.tool }
    {
        self.tool
    }

    /// The event.
    pub fn event(&self) -> Event
        ensures { result ≡ self.now.event }
    {
        self.event
    }

    /// The number of the code.
    pub fn code(&self) -> u16
        ensures { result ≡ self.now.code }
    {
        self.code
    }

    /// The line for LINE, else the offset.
    pub fn at(&self) -> u32
        ensures { result ≡ self.now.at }
    {
        self.at
    }

    /// The offset that is gone to, for JUMP and BRANCH; else 0.
    pub fn dest(&self) -> u32
        ensures { result ≡ self.now.dest }
    {
        self.dest
    }

    /// The characters of the first value, none where it is absent.
    pub fn first(&self) -> &'a [char]
        ensures { result.now ≡ self.now.first }
    {
        self.first
    }

    /// The characters of the second value, none where it is absent.
    pub fn second(&self) -> &'a [char]
        ensures { result.now ≡ self.now.second }
    {
        self.second
    }
}
