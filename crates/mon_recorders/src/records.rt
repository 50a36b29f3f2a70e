//! The records of a thread.

ghost use Rattle.std.specs.Prelude.{◌≡◌, ◌+◌, ◌≤◌, ◌++◌, OnOk, OnErr, IfOk};
ghost use Rattle.std.specs.Vec.{vec_len, vec_capacity};
ghost use Rattle.mon_words.specs.Words.{is_bit};
ghost use Rattle.mon_recorders.specs.Happenings.{for_tools};
ghost use Rattle.mon_recorders.specs.Kept as spec;

use crate::delivery::Delivery;
use crate::happening::Happening;
use crate::record::Cut;
use mon_events::Event;
use mon_words::has_bit;
use std::alloc::{AllocError, Global};
use std::marker::Model;
use std::mem::size_of;

// A record as it is kept.
#[derive(Clone, Copy, Debug)]
pub struct Entry {
    pub step: u64,
    pub at: u32,
    pub dest: u32,
    // The place of its values among those that are kept, from 1; 0 where it has none.
    pub values: u32,
    pub code: u16,
    pub tool: u8,
    pub event: Event,
}

const _: () = prove!(size_of::<Entry>() == 24);

// The values of an event, of which one at least is not absent.
#[derive(Debug, Drop)]
pub struct Values {
    pub first: Cut,
    pub second: Cut,
}

/// What was recorded of a thread, in order. Contracts see the list of its records. A record takes 24 bytes; the values of
/// an event are kept once for all tools.
#[derive(Debug, Drop)]
pub struct Records {
    entries: Vec<Entry>,
    values: Vec<Values>,
}

impl Model for Records {
    ghost use Rattle.std.specs.Prelude.{List, map};
    ghost use Rattle.std.specs.Coded.{coded_list};
    ghost use Rattle.mon_recorders.specs.declared.record.Record.{Record as RecordOf};
    ghost use Rattle.mon_recorders.specs.contracts.record.Record as a_record;

    ghost Value = { List RecordOf };

    ghost coded = { coded_list a_record.the_row.coded };

    ghost use Rattle.mon_recorders.specs.Kept as spec;

    ghost view = { λ r. map (spec.kept r.values.items) r.entries.items };

    ghost invariant = { λ r. spec.AreKept r.values.items r.entries.items };
}

// Keeps the values of an event, where it has some; their place.
fn keep(values: &mut Vec<Values>, event: &Happening) -> Result<u32, AllocError>
    ensures ok { OnOk result (spec.Grown values.old.items values.new.items) }
    ensures place { IfOk result (λ place. spec.Placed place values.new.items event.now.first event.now.second) }
    ensures err { OnErr result (values.new.items ≡ values.old.items) }
{
    if event.first.is_absent() && event.second.is_absent() {
        return Ok(0);
    }
    let count = values.len();
    if count >= u32::MAX as usize {
        return Err(AllocError);
    }
    values.push(Values {
        first: event.first.copy()?,
        second: event.second.copy()?,
    })?;
    Ok(count as u32 + 1)
}

// The entry once for each of the tools, in ascending order.
#[tactic(auto, using(std::proofs::lemmas::Grind::common_steps, crate::proofs::Folds::for_tools_none, crate::proofs::Folds::for_tools_more))]
fn push_entries(entries: &mut Vec<Entry>, entry: Entry, tools: u8)
    requires { vec_len entries.old + 6 ≤ vec_capacity entries.old }
    ensures { entries.new.items ≡ entries.old.items ++ for_tools (is_bit tools) (spec.for_tool entry) 6 }
{
    for tool in 0..6u8 {
        if has_bit(u64::from(tools), tool) {
            entries.push_reserved(Entry { tool, ..entry });
        }
    }
}

// The characters of the values at a place.
fn shown(values: &[Values], place: u32) -> (&[char], &[char])
    ensures first { result.0.now ≡ (spec.values_at values.now place).first }
    ensures second { result.1.now ≡ (spec.values_at values.now place).second }
{
    if place == 0 {
        return (&[], &[]);
    }
    match values.get(place as usize - 1) {
        None => (&[], &[]),
        Some(values) => (values.first.chars(), values.second.chars()),
    }
}

// The delivery of which this is the entry.
fn read<'a>(values: &'a [Values], entry: &Entry) -> Delivery<'a>
    ensures { result ≡ spec.kept values.now entry.now }
{
    let (first, second) = shown(values, entry.values);
    Delivery {
        step: entry.step,
        tool: entry.tool,
        event: entry.event,
        code: entry.code,
        at: entry.at,
        dest: entry.dest,
        first,
        second,
    }
}

impl Records {
    ghost use Rattle.std.specs.Prelude.{◌≡◌, ◌<◌, ◌++◌, [], length, Some, OnOk, OnErr, IsTrue, ◌↔◌, slice_get};
    ghost use Rattle.mon_words.specs.Words.{is_bit};
    ghost use Rattle.mon_recorders.specs.Happenings.{for_tools, record_of};

    /// No records.
    pub fn new(alloc: Global) -> Records
        ensures { result ≡ [] }
    {
        Records {
            entries: Vec::new(alloc),
            values: Vec::new(alloc),
        }
    }

    /// How many records there are.
    pub fn len(&self) -> usize
        ensures { result ≡ length self.now }
    {
        self.entries.len()
    }

    /// Whether there is none.
    pub fn is_empty(&self) -> bool
        ensures { IsTrue result ↔ (self.now ≡ []) }
    {
        self.entries.is_empty()
    }

    /// Takes room for so many more records, so that they are pushed without a further allocation but for their values.
    pub fn reserve(&mut self, records: usize) -> Result<(), AllocError>
        ensures { self.new ≡ self.old }
    {
        self.entries.reserve(records)
    }

    /// Records an event of a step for each of the tools 0 to 5 whose bit is in `tools`, in ascending order. Where memory is
    /// short, all is as before.
    pub fn push_for_tools(
        &mut self,
        step: u64,
        event: &Happening,
        tools: u8,
    ) -> Result<(), AllocError>
        ensures ok { OnOk result (self.new ≡ self.old ++ for_tools (is_bit tools) (record_of step event.now) 6) }
        ensures err { OnErr result (self.new ≡ self.old) }
    {
        if tools % 64 == 0 {
            return Ok(());
        }
        self.entries.reserve(6)?;
        let values = keep(&mut self.values, event)?;
        let entry = Entry {
            step,
            at: event.at,
            dest: event.dest,
            values,
            code: event.code,
            tool: 0,
            event: event.event,
        };
        push_entries(&mut self.entries, entry, tools);
        Ok(())
    }

    /// The delivery of this index, counted from 0.
    pub fn get(&self, index: usize) -> Option<Delivery<'_>>
        ensures { result ≡ slice_get self.now index }
    {
        match self.entries.get(index) {
            None => None,
            Some(entry) => Some(read(self.values.as_slice(), entry)),
        }
    }

    /// The delivery of an index below the length.
    pub fn delivery(&self, index: usize) -> Delivery<'_>
        requires { index < length self.now }
        ensures { slice_get self.now index ≡ Some result }
    {
        read(self.values.as_slice(), &self.entries[index])
    }
}
