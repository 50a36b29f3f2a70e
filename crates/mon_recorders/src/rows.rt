//! The rows of a report.

ghost use Rattle.std.specs.Prelude.{◌≡◌, [], ◌∷◌, IfOk, OnOk};
ghost use Rattle.std.specs.List.{fold};
ghost use Rattle.mon_recorders.specs.Rows as spec;

use crate::delivery::Delivery;
use crate::key::Key;
use crate::record::Cut;
use crate::records::Records;
use crate::report::ThreadReport;
use mon_events::Event;
use sqlite_items::Items;
use std::alloc::{AllocError, Global};
use std::collections::BTreeMap;

/// What the rows of a report count.
#[derive(Clone, Copy, Debug, PartialEq, Eq)]
pub enum Counting {
    Lines,
    Calls,
    Branches,
}

/// What a line of a report says behind its kind and the tool.
#[derive(Debug, Drop)]
pub struct Row {
    /// The number of the code.
    pub code: u16,
    /// What is called; absent where the rows are none of calls.
    pub name: Cut,
    /// The numbers of the line, in order.
    pub numbers: Items<u64>,
}

fn counts(counting: Counting, event: Event) -> bool
    ensures { result ≡ spec.counts counting event }
{
    match (counting, event) {
        (Counting::Lines, Event::Line) => true,
        (Counting::Calls, Event::Call) => true,
        (Counting::Branches, Event::Branch) => true,
        _ => false,
    }
}

// One more of a key.
fn count_one<'a>(counted: &mut BTreeMap<Key<'a>, u64>, key: Key<'a>) -> Result<(), AllocError>
    ensures { OnOk result (counted.new.entries ≡ spec.count_one counted.old.entries key.entry) }
{
    let count = counted.get(&key).copied().unwrap_or(0);
    match count.checked_add(1) {
        // More records than there is memory for.
        None => Err(AllocError),
        Some(more) => {
            counted.insert(key, more)?;
            Ok(())
        }
    }
}

fn count_record<'a>(
    counted: &mut BTreeMap<Key<'a>, u64>,
    counting: Counting,
    tool: u8,
    delivery: &Delivery<'a>,
) -> Result<(), AllocError>
    ensures { OnOk result (counted.new.entries ≡ fold spec.count_one counted.old.entries (spec.keys_in counting tool (delivery.now ∷ []))) }
{
    if delivery.tool() == tool && counts(counting, delivery.event()) {
        return count_one(counted, Key::of(counting, delivery));
    }
    Ok(())
}

// The records of a thread.
#[tactic(auto, using(crate::proofs::Counted::records_more))]
fn count_records<'a>(
    counted: &mut BTreeMap<Key<'a>, u64>,
    counting: Counting,
    tool: u8,
    records: &'a Records,
) -> Result<(), AllocError>
    ensures { OnOk result (counted.new.entries ≡ fold spec.count_one counted.old.entries (spec.keys_in counting tool records.now)) }
{
    for index in 0..records.len() {
        count_record(counted, counting, tool, &records.delivery(index))?;
    }
    Ok(())
}

// The records of all threads.
fn count_threads<'a>(
    alloc: Global,
    counting: Counting,
    tool: u8,
    threads: &'a [ThreadReport],
) -> Result<BTreeMap<Key<'a>, u64>, AllocError>
    ensures { IfOk result (λ counted. counted.entries ≡ spec.counted (spec.keys_over counting tool threads.now)) }
{
    let mut counted = BTreeMap::new(alloc);
    for thread in threads {
        count_records(&mut counted, counting, tool, &thread.records)?;
    }
    Ok(counted)
}

// The row of a key, without its count.
fn uncounted(alloc: Global, key: &Key<'_>) -> Result<Row, AllocError>
    ensures { IfOk result (λ r. r ≡ key.now) }
{
    Ok(Row {
        code: key.code(),
        name: Cut::from_chars(alloc, key.name())?,
        numbers: Items::from_slice(alloc, key.numbers())?,
    })
}

fn row_of(alloc: Global, key: &Key<'_>, count: u64) -> Result<Row, AllocError>
    ensures { IfOk result (λ r. r ≡ spec.row_of (key.now, count)) }
{
    let mut row = uncounted(alloc, key)?;
    row.numbers.push(count)?;
    Ok(row)
}

fn rows(
    alloc: Global,
    counting: Counting,
    threads: &[ThreadReport],
    tool: u8,
) -> Result<Items<Row>, AllocError>
    ensures { IfOk result (λ r. r ≡ spec.rows counting tool threads.now) }
{
    let counted = count_threads(alloc, counting, tool, threads)?;
    let mut rows = Items::new(alloc);
    for (key, count) in &counted {
        rows.push(row_of(alloc, key, *count)?)?;
    }
    Ok(rows)
}

// The numbers of a key behind the last row, where that is of its code, else a row of its own.
#[tactic(auto, using(crate::proofs::Counted::cover_same, crate::proofs::Counted::cover_other))]
fn cover(alloc: Global, rows: &mut Items<Row>, key: &Key<'_>) -> Result<(), AllocError>
    ensures { OnOk result (rows.new ≡ spec.cover rows.old key.now) }
{
    match rows.pop() {
        Some(mut last) if last.code == key.code() => {
            last.numbers
                .append(Items::from_slice(alloc, key.numbers())?)?;
            rows.push(last)
        }
        Some(last) => {
            rows.push(last)?;
            rows.push(uncounted(alloc, key)?)
        }
        None => rows.push(uncounted(alloc, key)?),
    }
}

/// The rows of a report of covered lines: for each code that was hit, in program order, the lines for which the tool has a
/// LINE record in any of the threads, ascending.
pub fn coverage(alloc: Global, threads: &[ThreadReport], tool: u8) -> Result<Items<Row>, AllocError>
    ensures { IfOk result (λ r. r ≡ spec.coverage tool threads.now) }
{
    let counted = count_threads(alloc, Counting::Lines, tool, threads)?;
    let mut rows = Items::new(alloc);
    for key in counted.keys() {
        cover(alloc, &mut rows, key)?;
    }
    Ok(rows)
}

/// The rows of a report of lines: for each code and line the number of the tool's LINE records over all threads. Codes
/// stand in program order, lines ascend.
pub fn lines(alloc: Global, threads: &[ThreadReport], tool: u8) -> Result<Items<Row>, AllocError>
    ensures { IfOk result (λ r. r ≡ spec.rows Counting.Lines tool threads.now) }
{
    rows(alloc, Counting::Lines, threads, tool)
}

/// The rows of a report of calls: for each code and callable the number of the tool's CALL records over all threads. Codes
/// stand in program order, callables by their characters.
pub fn calls(alloc: Global, threads: &[ThreadReport], tool: u8) -> Result<Items<Row>, AllocError>
    ensures { IfOk result (λ r. r ≡ spec.rows Counting.Calls tool threads.now) }
{
    rows(alloc, Counting::Calls, threads, tool)
}

/// The rows of a report of branches: for each code, offset and destination the number of the tool's BRANCH records over
/// all threads. Codes stand in program order, offsets and then destinations ascend.
pub fn branches(alloc: Global, threads: &[ThreadReport], tool: u8) -> Result<Items<Row>, AllocError>
    ensures { IfOk result (λ r. r ≡ spec.rows Counting.Branches tool threads.now) }
{
    rows(alloc, Counting::Branches, threads, tool)
}
