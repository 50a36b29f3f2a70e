mod made;
mod world;

use made::{Ask, Due, Made};
use mon_history::Policy;
use std::alloc::Global;
use std::test::Fail;
use world::World;

const LINE: u32 = 128;

const PY_START: u32 = 1024;

const RAISE: u32 = 16384;

/// A loop. A line begins at its locations 1, 3, 7 and 12.
const LOOP: &str = "def f(n):\n    i = 0\n    while i < n:\n        i = i + 1\n    return i\n";

const LINE_STARTS: u64 = 1 << 1 | 1 << 3 | 1 << 7 | 1 << 12;

/// Calls with their replies, and whether the board is halted for them.
const OF_TOOLS: [(Ask, Due, bool); 13] = [
    (Ask::UseToolId(5, "opt"), Due::Nothing, false),
    (Ask::UseToolId(0, "dbg"), Due::Nothing, false),
    (Ask::UseToolId(5, "x"), Due::ToolInUse("opt"), false),
    (Ask::UseToolId(6, "x"), Due::BadTool(6), false),
    (Ask::GetTool(-1), Due::BadTool(-1), false),
    (Ask::GetTool(5), Due::Name("opt"), false),
    (Ask::GetTool(4), Due::Nothing, false),
    (Ask::SetEvents(3, LINE), Due::BadTool(3), false),
    (Ask::SetEvents(5, PY_START), Due::Nothing, true),
    (Ask::SetEvents(0, PY_START), Due::Nothing, true),
    (
        Ask::RegisterCallback(5, PY_START, Policy::Keep),
        Due::Was(Policy::Nothing),
        true,
    ),
    (
        Ask::RegisterCallback(0, PY_START, Policy::Keep),
        Due::Was(Policy::Nothing),
        true,
    ),
    (
        Ask::RegisterCallback(0, PY_START, Policy::Keep),
        Due::Was(Policy::Keep),
        true,
    ),
];

const OF_SETS: [(Ask, Due, bool); 8] = [
    (Ask::UseToolId(1, "t"), Due::Nothing, false),
    (Ask::SetEvents(1, 8), Due::BadEvent(8), false),
    (Ask::SetEvents(1, 10), Due::BadEvent(10), false),
    (Ask::SetEvents(1, 1048576), Due::BadEvent(1048576), false),
    (
        Ask::SetLocalEvents(1, 0, RAISE),
        Due::BadEvent(RAISE),
        false,
    ),
    (
        Ask::RegisterCallback(1, RAISE, Policy::Once),
        Due::BadEvent(RAISE),
        false,
    ),
    (
        Ask::RegisterCallback(2, LINE, Policy::Keep),
        Due::Was(Policy::Nothing),
        true,
    ),
    (Ask::GetLocalEvents(1, 0), Due::Set(0), false),
];

/// Calls with the number of locations that are read and rewritten, the number of other words that are stored, and which
/// of the locations that are read have a want bit.
const COUNTED: [(Ask, u32, u32, u32, u64); 9] = [
    (Ask::UseToolId(1, "cov"), 0, 0, 0, 0),
    (Ask::SetEvents(1, LINE), 16, 4, 0, 0),
    (Ask::SetEvents(1, LINE), 16, 0, 0, LINE_STARTS),
    (Ask::RegisterCallback(1, LINE, Policy::Keep), 0, 0, 1, 0),
    (Ask::RegisterCallback(1, LINE, Policy::Keep), 0, 0, 0, 0),
    (Ask::SetLocalEvents(1, 0, PY_START), 16, 1, 0, LINE_STARTS),
    (Ask::SetEvents(1, RAISE), 16, 4, 1, LINE_STARTS | 1),
    (Ask::SetEvents(1, RAISE), 16, 0, 0, 1),
    (Ask::RestartEvents, 16, 0, 0, 1),
];

/// Whether these calls have the replies that are due, and the journal a line for each.
fn are_due(alloc: Global, threads: u8, rows: &[(Ask, Due, bool)]) -> Result<bool, Fail> {
    let mut world = World::new(alloc, LOOP, threads)?;
    for (ask, due, _) in rows {
        let call = ask.call(alloc)?;
        let Some(made) = world.make_again(&call) else {
            return Ok(false);
        };
        if !due.is(&made.reply) {
            return Ok(false);
        }
    }
    let journal = world.into_journal();
    for (number, (_, due, stops)) in rows.iter().enumerate() {
        let Some(line) = journal.get(number) else {
            return Ok(false);
        };
        if !due.is(&line.reply) || line.stops.is_some() != *stops {
            return Ok(false);
        }
    }
    Ok(journal.len() == rows.len())
}

#[test]
fn replies_are_due(rt: HostRuntime) -> Result<(), Fail> {
    assert!(rt; are_due(rt.alloc(), 1, &OF_TOOLS)?);
    assert!(rt; are_due(rt.alloc(), 0, &OF_SETS)?);
    Ok(())
}

#[test]
fn words_change_where_they_differ(rt: HostRuntime) -> Result<(), Fail> {
    let mut world = World::new(rt.alloc(), LOOP, 1)?;
    for (ask, reads, rewrites, stores, wanted) in &COUNTED {
        let call = ask.call(rt.alloc())?;
        let Some(made) = world.make_again(&call) else {
            panic!(rt; "no memory")
        };
        let Made { reply, counts } = made;
        assert!(rt;
            counts.are(*reads, *rewrites, *stores, *wanted),
            "at {reply:?}"
        );
    }
    Ok(())
}
