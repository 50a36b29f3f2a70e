ghost use Rattle.std.specs.Prelude.{◌≡◌, IfOk};

mod due;

use due::{Answer, CallDue, ThreadDue, are_calls, are_threads};
use mon_code::Program;
use mon_compile::compile;
use mon_events::Event;
use mon_forms::read_plan;
use mon_lexer::items;
use mon_parser::parse;
use mon_run::serial;
use std::alloc::Global;
use std::test::Fail;

const LOOP: &str = "def f(n):\n    i = 0\n    while i < n:\n        i = i + 1\n    return i\n";

const TWO: &str = "def a(n):\n    return b(n) + 1\ndef b(n):\n    return n * 2\n";

const CROSSED: &str =
    "def x(n):\n    return n\ndef y(n):\n    return n\ndef a(n):\n    return x(n) + y(n)\ndef b(n):\n    return y(n) + x(n)\n";

/// A plan, and what its serial run tells.
struct Row {
    program: &'static str,
    plan: &'static str,
    calls: &'static [CallDue],
    threads: &'static [ThreadDue],
}

/// A script stops, starts and restarts LINE between turns.
const STARTED_AGAIN: Row = Row {
    program: LOOP,
    plan: "steps 100\nthread f 3\nbefore\nuse_tool_id 1 t\nregister_callback 1 LINE once\nset_events 1 LINE\nscript\nset_events 1 0\nset_events 1 LINE\nrestart_events\nschedule\nturn 0 8\ncall 0\ncall 0\nturn 0 9\ncall 0\n",
    calls: &[
        (Answer::Nothing, None),
        (Answer::WasNothing, Some(&[0])),
        (Answer::Nothing, Some(&[0])),
        (Answer::Nothing, Some(&[8])),
        (Answer::Nothing, Some(&[8])),
        (Answer::Nothing, Some(&[17])),
    ],
    threads: &[ThreadDue {
        steps: 36,
        returned: Some(3),
        records: &[
            (1, 1, Event::Line, 0, 2),
            (3, 1, Event::Line, 0, 3),
            (7, 1, Event::Line, 0, 4),
            (21, 1, Event::Line, 0, 3),
            (25, 1, Event::Line, 0, 4),
            (34, 1, Event::Line, 0, 5),
        ],
        disables: &[
            (1, 1, Event::Line, 0, 2),
            (3, 1, Event::Line, 0, 6),
            (7, 1, Event::Line, 0, 14),
            (21, 1, Event::Line, 0, 6),
            (25, 1, Event::Line, 0, 14),
            (34, 1, Event::Line, 0, 24),
        ],
    }],
};

/// A script asks for all lines behind the first thread's end.
const ONE_BEHIND_ANOTHER: Row = Row {
    program: TWO,
    plan: "steps 100\nthread a 5\nthread a 5\nbefore\nuse_tool_id 1 t\nregister_callback 1 LINE keep\nset_local_events 1 b LINE\nscript\nset_events 1 LINE\nschedule\nturn 0 12\ncall 0\n",
    calls: &[
        (Answer::Nothing, None),
        (Answer::WasNothing, Some(&[0, 0])),
        (Answer::Nothing, Some(&[0, 0])),
        (Answer::Nothing, Some(&[12, 0])),
    ],
    threads: &[
        ThreadDue {
            steps: 12,
            returned: Some(11),
            records: &[(5, 1, Event::Line, 1, 4)],
            disables: &[],
        },
        ThreadDue {
            steps: 12,
            returned: Some(11),
            records: &[(1, 1, Event::Line, 0, 2), (5, 1, Event::Line, 1, 4)],
            disables: &[],
        },
    ],
};

/// Each thread disables what the other calls next.
const DISABLED_ACROSS: Row = Row {
    program: CROSSED,
    plan: "steps 100\nthread a 1\nthread b 1\nbefore\nuse_tool_id 1 t\nregister_callback 1 PY_START once\nset_local_events 1 x PY_START\nset_local_events 1 y PY_START\nschedule\nturn 0 5\nturn 1 5\n",
    calls: &[
        (Answer::Nothing, None),
        (Answer::WasNothing, Some(&[0, 0])),
        (Answer::Nothing, Some(&[0, 0])),
        (Answer::Nothing, Some(&[0, 0])),
    ],
    threads: &[
        ThreadDue {
            steps: 15,
            returned: Some(2),
            records: &[(4, 1, Event::PyStart, 0, 0)],
            disables: &[(4, 1, Event::PyStart, 0, 0)],
        },
        ThreadDue {
            steps: 15,
            returned: Some(2),
            records: &[(4, 1, Event::PyStart, 1, 0)],
            disables: &[(4, 1, Event::PyStart, 1, 0)],
        },
    ],
};

/// The second script makes its calls in the schedule, which asks for one more; the first script makes its own behind the
/// schedule, when the thread has met the bound.
const BEHIND_THE_SCHEDULE: Row = Row {
    program: LOOP,
    plan: "steps 34\nthread f 3\nbefore\nuse_tool_id 1 t\nregister_callback 1 LINE keep\nscript\nset_events 1 LINE\nget_events 1\nscript\nget_events 1\nset_events 1 0\nschedule\ncall 1\nturn 0 9\ncall 1\ncall 1\nturn 0 34\n",
    calls: &[
        (Answer::Nothing, None),
        (Answer::WasNothing, Some(&[0])),
        (Answer::Set(0), None),
        (Answer::Nothing, Some(&[9])),
        (Answer::Nothing, Some(&[34])),
        (Answer::Set(128), None),
    ],
    threads: &[ThreadDue {
        steps: 34,
        returned: None,
        records: &[],
        disables: &[],
    }],
};

/// A script asks for LINE in the midst of a line.
const WITHIN_A_LINE: Row = Row {
    program: LOOP,
    plan: "steps 100\nthread f 3\nbefore\nuse_tool_id 1 t\nregister_callback 1 LINE keep\nscript\nset_events 1 LINE\nschedule\nturn 0 9\ncall 0\n",
    calls: &[
        (Answer::Nothing, None),
        (Answer::WasNothing, Some(&[0])),
        (Answer::Nothing, Some(&[9])),
    ],
    threads: &[ThreadDue {
        steps: 36,
        returned: Some(3),
        records: &[
            (12, 1, Event::Line, 0, 3),
            (16, 1, Event::Line, 0, 4),
            (21, 1, Event::Line, 0, 3),
            (25, 1, Event::Line, 0, 4),
            (30, 1, Event::Line, 0, 3),
            (34, 1, Event::Line, 0, 5),
        ],
        disables: &[],
    }],
};

fn compiled(alloc: Global, text: &str) -> Result<(Program, Vec<u8>), Fail>
    ensures bases { IfOk result (λ made. made.1.items ≡ made.0.bases) }
{
    let items = items(alloc, text.as_bytes())?;
    let module = parse(alloc, items.as_slice())?;
    Ok(compile(alloc, &module)?)
}

/// Whether the serial run tells what is due.
fn tells(alloc: Global, row: &Row) -> Result<bool, Fail> {
    let (program, bases) = compiled(alloc, row.program)?;
    let plan = read_plan(alloc, row.plan.as_bytes(), &program)?;
    let report = serial(alloc, &program, bases.as_slice(), &plan)?;
    Ok(are_calls(&report.journal, row.calls) && are_threads(report.threads.as_slice(), row.threads))
}

#[test]
fn schedules_are_followed(rt: HostRuntime) -> Result<(), Fail> {
    let alloc = rt.alloc();
    assert!(rt; tells(alloc, &STARTED_AGAIN)?);
    assert!(rt; tells(alloc, &ONE_BEHIND_ANOTHER)?);
    assert!(rt; tells(alloc, &DISABLED_ACROSS)?);
    assert!(rt; tells(alloc, &BEHIND_THE_SCHEDULE)?);
    assert!(rt; tells(alloc, &WITHIN_A_LINE)?);
    Ok(())
}
