ghost use Rattle.std.specs.Prelude.{◌≡◌, ℕ, IfOk, IsTrue, length, slice_index};
ghost use Rattle.mon_words.specs.Told.{Owns};
ghost use Rattle.mon_words.specs.Standing.{IsFirst};
ghost use Rattle.mon_board.specs.PlainViews.{IsRunning};
ghost use Rattle.mon_recorders.specs.Boards.{AreAt};
ghost use Rattle.mon_hear.specs.Hearing.{AreGlobal};

use mon_board::{BoardFault, PlainBoard};
use mon_events::{Event, Slot};
use mon_hear::{asks, hear_step, hear_unwinding};
use mon_recorders::{Cut, Disabled, Happening, Kind, Records};
use mon_values::value::{Exc, Value};
use mon_words::Handle;
use sqlite_items::Items;
use std::alloc::{AllocError, Global};

/// What was recorded of a step, and the location's word afterwards.
#[derive(Drop)]
struct Heard {
    records: Records,
    disables: Items<Disabled>,
    word: u64,
}

// An event at location 0, or a global one.
fn event(event: Event, kind: Kind, at: u32, first: Cut) -> Happening
    ensures { (result.kind ≡ kind) × (result.event ≡ event) }
{
    Happening {
        event,
        kind,
        code: 1,
        at,
        offset: 8,
        dest: 0,
        first,
        second: Cut::absent(),
    }
}

// A call that answers and raises, of the builtin `len`.
fn calls(alloc: Global) -> Result<Items<Happening>, AllocError>
    ensures { IfOk result (λ es. AreAt 0 es) }
{
    let len = Value::Builtin(1);
    let names = Items::new(alloc);
    let mut events = Items::new(alloc);
    events.push(event(
        Event::Call,
        Kind::Local(0, Slot::Main),
        8,
        Cut::of(alloc, &len, names.as_slice())?,
    ))?;
    events.push(event(Event::CReturn, Kind::Ancillary(0), 8, Cut::absent()))?;
    events.push(event(Event::Raise, Kind::Global, 8, Cut::absent()))?;
    Ok(events)
}

// LINE and INSTRUCTION.
fn lines(alloc: Global) -> Result<Items<Happening>, AllocError>
    ensures { IfOk result (λ es. AreAt 0 es) }
{
    let mut events = Items::new(alloc);
    events.push(event(Event::Line, Kind::Local(0, Slot::Line), 3, Cut::absent()))?;
    events.push(event(
        Event::Instruction,
        Kind::Local(0, Slot::Instruction),
        8,
        Cut::absent(),
    ))?;
    Ok(events)
}

// An exception that leaves a frame.
fn unwinds(alloc: Global) -> Result<Items<Happening>, AllocError>
    ensures { IfOk result (λ es. AreGlobal es) }
{
    let raised = Exc {
        class: 5,
        arg: None,
    };
    let names = Items::new(alloc);
    let cut = Cut::of_exc(alloc, &raised, names.as_slice())?;
    let mut events = Items::new(alloc);
    events.push(event(Event::PyUnwind, Kind::Global, 8, cut))?;
    Ok(events)
}

// A board of one location, whose words these are.
fn board(alloc: Global, words: &[u64]) -> Result<PlainBoard, BoardFault>
    requires first { IsFirst words.now }
    requires one { length words.now ≡ 8 }
    ensures threads { IfOk result (λ b. b.threads ≡ 1) }
    ensures running { IfOk result (λ b. IsRunning b.chair.me.0) }
    ensures wide { IfOk result (λ b. length b.chair.me.0.first.cells ≡ 1) }
{
    PlainBoard::new(alloc, 1, words)
}

// Hears step 5 at location 0.
fn hear_at_first<H: Handle>(
    alloc: Global,
    handle: &mut H,
    events: &[Happening],
) -> Result<Heard, AllocError>
    requires attached { IsTrue (H.told handle.old).attached }
    requires owns { Owns (H.told handle.old) }
    requires wide { length (H.told handle.old).first.cells ≡ 1 }
    requires here { AreAt 0 events.now }
    ensures rest { H.rest handle.new ≡ H.rest handle.old }
{
    let mut records = Records::new(alloc);
    let mut disables = Items::new(alloc);
    hear_step(handle, 0, 5, events, &mut records, &mut disables)?;
    Ok(Heard {
        records,
        disables,
        word: handle.load(0),
    })
}

// The same over a board.
fn hear_over(
    alloc: Global,
    board: &mut PlainBoard,
    events: &[Happening],
) -> Result<Heard, AllocError>
    requires threads { board.old.threads ≡ 1 }
    requires running { IsRunning board.old.chair.me.0 }
    requires wide { length board.old.chair.me.0.first.cells ≡ 1 }
    requires here { AreAt 0 events.now }
{
    let mut handle = board.handle(0);
    let Ok(()) = handle.try_enter() else {
        unreachable!()
    };
    hear_at_first(alloc, &mut handle, events)
}

// The records of step 5, which unwinds, over a board.
fn unwound_over(
    alloc: Global,
    board: &mut PlainBoard,
    events: &[Happening],
) -> Result<Records, AllocError>
    requires threads { board.old.threads ≡ 1 }
    requires running { IsRunning board.old.chair.me.0 }
    requires global { AreGlobal events.now }
{
    let mut handle = board.handle(0);
    let Ok(()) = handle.try_enter() else {
        unreachable!()
    };
    let mut records = Records::new(alloc);
    hear_unwinding(&mut handle, 5, events, &mut records)?;
    Ok(records)
}

// Whether the records are of these tools and events, in this order.
fn are(records: &Records, want: &[(u8, Event)]) -> bool {
    for (index, (tool, event)) in want.iter().enumerate() {
        let Some(delivery) = records.get(index) else {
            return false;
        };
        if delivery.tool() != *tool || delivery.event() != *event || delivery.step() != 5 {
            return false;
        }
    }
    records.len() == want.len()
}

fn tools_are(disables: &[Disabled], want: &[u8]) -> bool {
    disables.iter().map(|d| d.tool).eq(want.iter().copied())
}

// CALL is kept for the tools 1, 3 and 5 and disabled once heard by the others, C_RETURN is kept for tool 1, and RAISE is
// heard by the tools 2 and 3: it has no disable.
#[test]
fn six_tools_hear_a_call_in_turn(rt: HostRuntime) {
    let alloc = rt.alloc();
    let Ok(mut board) = board(
        alloc,
        &[
            12,
            8,
            68,
            0x1000_0008,
            0x2000_0004,
            8,
            4,
            0xffff_ff03_f000_1c80,
        ],
    ) else {
        panic!(rt; "no memory")
    };
    let events = calls(alloc).expect(&rt, "memory");
    let heard = hear_over(alloc, &mut board, events.as_slice()).expect(&rt, "memory");
    let call = Event::Call;
    let want = [
        (0, call),
        (1, call),
        (2, call),
        (3, call),
        (4, call),
        (5, call),
        (1, Event::CReturn),
        (2, Event::Raise),
        (3, Event::Raise),
    ];
    assert!(rt; are(&heard.records, &want));
    assert!(rt; tools_are(heard.disables.as_slice(), &[0, 2, 4]));
    assert_eq!(rt; heard.word, 0xfeaf_ff03_f000_1c5c);
    let Some(delivery) = heard.records.get(5) else {
        panic!(rt; "a record is lost")
    };
    assert!(rt;
        delivery.first()
            == [
                '<', 'b', 'u', 'i', 'l', 't', '-', 'i', 'n', ' ', 'l', 'e', 'n', '>'
            ]
            .as_slice()
    );
    assert!(rt; delivery.second().is_empty());
    assert_eq!(rt;
        (delivery.code(), delivery.at(), delivery.dest()),
        (1, 8, 0)
    );
}

// LINE is wanted for the tools 0 and 5, and INSTRUCTION for the tools 0 and 1: LINE comes first.
#[test]
fn lines_are_heard_before_instructions(rt: HostRuntime) {
    let alloc = rt.alloc();
    let Ok(mut board) = board(
        alloc,
        &[0, 0x4400, 0x400, 0, 0, 0, 0x8000, 0xffff_ff00_00e1_1580],
    ) else {
        panic!(rt; "no memory")
    };
    let events = lines(alloc).expect(&rt, "memory");
    let heard = hear_over(alloc, &mut board, events.as_slice()).expect(&rt, "memory");
    let want = [
        (0, Event::Line),
        (5, Event::Line),
        (0, Event::Instruction),
        (1, Event::Instruction),
    ];
    assert!(rt; are(&heard.records, &want));
    assert!(rt; tools_are(heard.disables.as_slice(), &[5]));
}

// LINE is wanted, but off: nothing is heard, and the opcode in place gives way to the base.
#[test]
fn a_word_that_enables_nothing_is_retired(rt: HostRuntime) {
    let alloc = rt.alloc();
    let Ok(mut board) = board(alloc, &[0, 0x4000, 0, 0, 0, 0, 0, 0xffff_fe00_0001_1580]) else {
        panic!(rt; "no memory")
    };
    let events = lines(alloc).expect(&rt, "memory");
    let heard = hear_over(alloc, &mut board, events.as_slice()).expect(&rt, "memory");
    assert!(rt; heard.records.is_empty() && heard.disables.is_empty());
    assert_eq!(rt; heard.word, 0xffff_fe00_0001_1515);
    assert!(rt; !asks(heard.word, 0) && asks(heard.word, 1));
}

// PY_UNWIND is wanted everywhere for the tools 1 and 2, and tool 2 alone has a callback for it.
#[test]
fn an_exception_that_leaves_a_frame_is_heard(rt: HostRuntime) {
    let alloc = rt.alloc();
    let Ok(mut board) = board(
        alloc,
        &[
            0x0018_0000,
            0,
            0,
            0x0100_0000,
            0x0100_0000,
            0,
            0,
            0xffff_ff00_0000_1515,
        ],
    ) else {
        panic!(rt; "no memory")
    };
    let events = unwinds(alloc).expect(&rt, "memory");
    let records = unwound_over(alloc, &mut board, events.as_slice()).expect(&rt, "memory");
    assert!(rt; are(&records, &[(2, Event::PyUnwind)]));
    let Some(delivery) = records.get(0) else {
        panic!(rt; "a record is lost")
    };
    let name = [
        'Z', 'e', 'r', 'o', 'D', 'i', 'v', 'i', 's', 'i', 'o', 'n', 'E', 'r', 'r', 'o', 'r', '(',
        ')',
    ];
    assert!(rt; delivery.first() == name.as_slice());
}
