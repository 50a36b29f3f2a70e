use mon_events::{Event, Slot};
use mon_recorders::{
    Cut, Happening, Kind, Outcome, Records, Row, ThreadReport, branches, calls, coverage, lines,
};
use mon_values::value::Value;
use sqlite_items::Items;
use std::alloc::{AllocError, Global};

/// A record of a thread: the tools that heard it as bits, the event, its code, its line or offset, its destination, and the
/// builtin that is called.
type Told = (u8, Event, u16, u32, u32, u8);

// What is called, by the number of a builtin: `len` is 1, `str` is 3.
fn called(alloc: Global, told: &Told) -> Result<Cut, AllocError> {
    if told.1 != Event::Call {
        return Ok(Cut::absent());
    }
    let names = Items::new(alloc);
    Cut::of(alloc, &Value::Builtin(told.5), names.as_slice())
}

fn happening(alloc: Global, told: &Told) -> Result<Happening, AllocError> {
    Ok(Happening {
        event: told.1,
        kind: Kind::Local(0, Slot::Main),
        code: told.2,
        at: told.3,
        offset: 0,
        dest: told.4,
        first: called(alloc, told)?,
        second: Cut::absent(),
    })
}

fn records(alloc: Global, all: &[Told]) -> Result<Records, AllocError> {
    let mut records = Records::new(alloc);
    for told in all {
        records.push_for_tools(9, &happening(alloc, told)?, told.0)?;
    }
    Ok(records)
}

fn thread(alloc: Global, all: &[Told]) -> Result<ThreadReport, AllocError> {
    Ok(ThreadReport {
        printed: Items::new(alloc),
        records: records(alloc, all)?,
        disables: Items::new(alloc),
        steps: 10,
        outcome: Outcome::Limit,
    })
}

// Two threads that tool 1 hears, and tool 2 at one line.
fn threads(alloc: Global) -> Result<Items<ThreadReport>, AllocError> {
    let mut threads = Items::new(alloc);
    threads.push(thread(
        alloc,
        &[
            (2, Event::Line, 1, 7, 0, 0),
            (2, Event::Call, 1, 4, 0, 3),
            (6, Event::Line, 0, 3, 0, 0),
            (2, Event::Branch, 0, 6, 20, 0),
            (2, Event::Line, 1, 5, 0, 0),
            (2, Event::Line, 0, 3, 0, 0),
            (2, Event::Call, 1, 4, 0, 1),
            (2, Event::Jump, 0, 6, 2, 0),
        ],
    )?)?;
    threads.push(thread(
        alloc,
        &[
            (2, Event::Line, 1, 7, 0, 0),
            (2, Event::Branch, 0, 6, 8, 0),
            (2, Event::Call, 0, 8, 0, 3),
            (2, Event::Call, 1, 9, 0, 3),
            (2, Event::Branch, 0, 6, 20, 0),
            (2, Event::Branch, 0, 2, 20, 0),
        ],
    )?)?;
    Ok(threads)
}

/// A row that is wanted: its code, its name, and its numbers.
type Wanted<'a> = (u16, &'a str, &'a [u64]);

// Whether the rows are these, in this order.
fn are(rows: &[Row], want: &[Wanted<'_>]) -> bool {
    for (index, (code, name, numbers)) in want.iter().enumerate() {
        let Some(row) = rows.get(index) else {
            return false;
        };
        if row.code != *code
            || !row.name.chars().iter().copied().eq(name.chars())
            || row.numbers.as_slice() != *numbers
        {
            return false;
        }
    }
    rows.len() == want.len()
}

#[test]
fn lines_are_counted_over_all_threads(rt: HostRuntime) {
    let alloc = rt.alloc();
    let threads = threads(alloc).expect(&rt, "memory");
    let rows = lines(alloc, threads.as_slice(), 1).expect(&rt, "memory");
    let want: [Wanted<'_>; 3] = [(0, "", &[3, 2]), (1, "", &[5, 1]), (1, "", &[7, 2])];
    assert!(rt; are(rows.as_slice(), &want));
    let other = lines(alloc, threads.as_slice(), 2).expect(&rt, "memory");
    assert!(rt; are(other.as_slice(), &[(0, "", &[3, 1])]));
}

// By code and then by name.
#[test]
fn calls_are_counted_by_what_is_called(rt: HostRuntime) {
    let alloc = rt.alloc();
    let threads = threads(alloc).expect(&rt, "memory");
    let rows = calls(alloc, threads.as_slice(), 1).expect(&rt, "memory");
    let want: [Wanted<'_>; 3] = [
        (0, "<built-in str>", &[1]),
        (1, "<built-in len>", &[1]),
        (1, "<built-in str>", &[2]),
    ];
    assert!(rt; are(rows.as_slice(), &want));
}

#[test]
fn branches_are_counted_by_side(rt: HostRuntime) {
    let alloc = rt.alloc();
    let threads = threads(alloc).expect(&rt, "memory");
    let rows = branches(alloc, threads.as_slice(), 1).expect(&rt, "memory");
    let want: [Wanted<'_>; 3] = [
        (0, "", &[2, 20, 1]),
        (0, "", &[6, 8, 1]),
        (0, "", &[6, 20, 2]),
    ];
    assert!(rt; are(rows.as_slice(), &want));
}

#[test]
fn covered_lines_stand_in_one_row_a_code(rt: HostRuntime) {
    let alloc = rt.alloc();
    let threads = threads(alloc).expect(&rt, "memory");
    let rows = coverage(alloc, threads.as_slice(), 1).expect(&rt, "memory");
    assert!(rt; are(rows.as_slice(), &[(0, "", &[3]), (1, "", &[5, 7])]));
    let none = coverage(alloc, threads.as_slice(), 5).expect(&rt, "memory");
    assert!(rt; none.is_empty());
}
