use super::*;
use mon_events::{Event, EventSet, Slot};
use mon_forms::{Report, print_report};
use mon_history::{ControlCall, Counts, Journal, JournalLine, Policy, Reply, Who};
use mon_recorders::{Cut, Disabled, Happening, Kind, Outcome, Records, ThreadReport};
use mon_shared::SharedItems;
use mon_values::exc::make_exc;
use mon_values::text::Text;
use mon_values::value::Value;
use sqlite_items::Items;

const PLAN: &[u8] = b"steps 9
thread f 1
thread two 1 2
report coverage 1
report lines 1
report calls 2
report branches 1
report coverage 3
";

const REPORTED: &[u8] = b"journal before use_tool_id 1 cov = None
journal before set_events 1 CALL|LINE = None at 0 0
journal script 2 set_local_events 5 two 0 = BadTool(5)
journal script 0 use_tool_id 1 x = ToolInUse('cov')
journal script 0 register_callback 1 1048576 once = BadEvent(1048576)
journal script 0 register_callback 1 LINE keep = keep at 3 12
journal before get_tool 1 = 'cov'
journal before get_events -1 = CALL|LINE
journal before get_local_events 1 f = 0
journal before free_tool_id 1 = None
journal before restart_events = None at 0 0
thread 0 f
out \"a'b\"
out '\\n'
rec 1 1 LINE f 2
rec 3 0 C_RETURN two 6 <built-in len> 'ab'
rec 3 1 C_RETURN two 6 <built-in len> 'ab'
rec 4 2 CALL none 8 <built-in print> MISSING
rec 5 1 PY_RETURN f 10 2
rec 6 1 BRANCH f 4 16
rec 7 5 RAISE f 6 ValueError('an argument of some length h
disable 1 1 LINE f 2
disable 7 5 PY_START two 0
end 8 returned (1, <function two>)
thread 1 two
rec 2 1 LINE two 8
rec 4 1 LINE f 2
end 9 limit
coverage 1 f 2
coverage 1 two 8
lines 1 f 2 2
lines 1 two 8 1
calls 2 none <built-in print> 1
branches 1 f 4 16 1
";

fn line(
    alloc: Global,
    who: Who,
    call: ControlCall,
    reply: Reply,
    stops: Option<[u64; 2]>,
) -> Result<JournalLine, AllocError> {
    let stops = match stops {
        None => None,
        Some(counts) => Some(counts_of(alloc, &counts)?),
    };
    Ok(JournalLine {
        call,
        who,
        reply,
        stops,
    })
}

fn counts_of(alloc: Global, counts: &[u64]) -> Result<Counts, AllocError> {
    let mut kept = Counts::zeros(alloc, 2)?;
    for (thread, count) in counts.iter().enumerate() {
        if thread < kept.len() {
            kept.set(thread, *count);
        }
    }
    Ok(kept)
}

fn name(alloc: Global, text: &str) -> Result<Text, AllocError> {
    Text::from_ascii(alloc, text)
}

const LINE: EventSet = EventSet(128);

const CALL_LINE: EventSet = EventSet(130);

const UNKNOWN: EventSet = EventSet(1_048_576);

const EMPTY: EventSet = EventSet(0);

fn lines(alloc: Global) -> Result<Vec<JournalLine>, AllocError> {
    let script = Who::Script(0);
    let before = Who::Before;
    let used = ControlCall::UseToolId {
        id: 1,
        name: name(alloc, "cov")?,
    };
    let again = ControlCall::UseToolId {
        id: 1,
        name: name(alloc, "x")?,
    };
    let local = ControlCall::SetLocalEvents {
        id: 5,
        code: 2,
        set: EMPTY,
    };
    let unknown = ControlCall::RegisterCallback {
        id: 1,
        event: UNKNOWN,
        policy: Policy::Once,
    };
    let known = ControlCall::RegisterCallback {
        id: 1,
        event: LINE,
        policy: Policy::Keep,
    };
    let global = ControlCall::SetEvents {
        id: 1,
        set: CALL_LINE,
    };
    let in_use = Reply::ToolInUse(name(alloc, "cov")?);
    let was = Reply::Was(Policy::Keep);
    let start = Some([0, 0]);
    let locals = ControlCall::GetLocalEvents { id: 1, code: 0 };
    let free = ControlCall::FreeToolId { id: 1 };
    let restart = ControlCall::RestartEvents;
    let lines = vec![in alloc;
        line(alloc, before, used, Reply::Nothing, None)?,
        line(alloc, before, global, Reply::Nothing, start)?,
        line(alloc, Who::Script(2), local, Reply::BadTool(5), None)?,
        line(alloc, script, again, in_use, None)?,
        line(alloc, script, unknown, Reply::BadEvent(UNKNOWN), None)?,
        line(alloc, script, known, was, Some([3, 12]))?,
        line(
            alloc,
            before,
            ControlCall::GetTool { id: 1 },
            Reply::Name(name(alloc, "cov")?),
            None
        )?,
        line(
            alloc,
            before,
            ControlCall::GetEvents { id: -1 },
            Reply::Set(CALL_LINE),
            None
        )?,
        line(alloc, before, locals, Reply::Set(EMPTY), None)?,
        line(alloc, before, free, Reply::Nothing, None)?,
        line(alloc, before, restart, Reply::Nothing, start)?,
    ]?;
    Ok(lines)
}

fn journal(alloc: Global) -> Result<Journal, AllocError> {
    let mut journal = Journal::new(alloc);
    for line in lines(alloc)? {
        journal.reserve()?;
        if journal.len() < 256 {
            journal.add(line);
        }
    }
    Ok(journal)
}

fn happening(event: Event, code: u16, at: u32, dest: u32, first: Cut, second: Cut) -> Happening {
    Happening {
        event,
        kind: Kind::Local(0, Slot::Main),
        code,
        at,
        offset: at,
        dest,
        first,
        second,
    }
}

fn cut(alloc: Global, value: &Value) -> Result<Cut, AllocError> {
    Cut::of(alloc, value, &[])
}

fn line_of(code: u16, line: u32) -> Happening {
    happening(Event::Line, code, line, 0, Cut::absent(), Cut::absent())
}

fn records(alloc: Global) -> Result<Records, AllocError> {
    let (len, print) = (Value::Builtin(1), Value::Builtin(0));
    let long = exception(alloc, "an argument of some length here")?;
    let text = Value::Text(name(alloc, "ab")?);
    let mut records = Records::new(alloc);
    records.push_for_tools(1, &line_of(0, 2), 2)?;
    let gave = happening(
        Event::CReturn,
        2,
        6,
        0,
        cut(alloc, &len)?,
        cut(alloc, &text)?,
    );
    records.push_for_tools(3, &gave, 3)?;
    let call = happening(Event::Call, 1, 8, 0, cut(alloc, &print)?, Cut::absent());
    records.push_for_tools(4, &call, 4)?;
    let left = happening(
        Event::PyReturn,
        0,
        10,
        0,
        cut(alloc, &Value::Int(2))?,
        Cut::absent(),
    );
    records.push_for_tools(5, &left, 2)?;
    let branch = happening(Event::Branch, 0, 4, 16, Cut::absent(), Cut::absent());
    records.push_for_tools(6, &branch, 2)?;
    let raise = happening(Event::Raise, 0, 6, 0, cut(alloc, &long)?, Cut::absent());
    records.push_for_tools(7, &raise, 32)?;
    Ok(records)
}

/// A ValueError with a text.
fn exception(alloc: Global, text: &str) -> Result<Value, AllocError> {
    let text = Value::Text(name(alloc, text)?);
    match make_exc(alloc, 14, Some(&text)) {
        Ok(exc) => Ok(Value::Exc(exc)),
        Err(_) => Err(AllocError),
    }
}

fn threads(alloc: Global) -> Result<Items<ThreadReport>, AllocError> {
    let mut printed = Items::new(alloc);
    printed.push(name(alloc, "a'b")?)?;
    printed.push(name(alloc, "\n")?)?;
    let mut disables = Items::new(alloc);
    disables.push(Disabled {
        step: 1,
        tool: 1,
        event: Event::Line,
        code: 0,
        at: 2,
    })?;
    disables.push(Disabled {
        step: 7,
        tool: 5,
        event: Event::PyStart,
        code: 2,
        at: 0,
    })?;
    let pair = vec![in alloc; Value::Int(1), Value::Function(2)]?;
    let pair = SharedItems::from_vec(pair)?;
    let mut later = Records::new(alloc);
    later.push_for_tools(2, &line_of(2, 8), 2)?;
    later.push_for_tools(4, &line_of(0, 2), 2)?;
    let mut threads = Items::new(alloc);
    threads.push(ThreadReport {
        printed,
        records: records(alloc)?,
        disables,
        steps: 8,
        outcome: Outcome::Returned(Value::Tuple(pair)),
    })?;
    threads.push(ThreadReport {
        printed: Items::new(alloc),
        records: later,
        disables: Items::new(alloc),
        steps: 9,
        outcome: Outcome::Limit,
    })?;
    Ok(threads)
}

#[test]
fn a_report_tells_the_calls_then_the_threads_and_then_the_rows(
    rt: HostRuntime,
) -> Result<(), Fail> {
    let alloc = rt.alloc();
    let program = program(alloc)?;
    let plan = read_plan(alloc, PLAN, &program)?;
    let report = Report {
        journal: journal(alloc)?,
        threads: threads(alloc)?,
    };
    let printed = print_report(alloc, &program, &plan, &report)?;
    assert!(rt; printed.as_slice() == REPORTED);
    Ok(())
}
