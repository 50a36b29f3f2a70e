//! Worked plans, with their whole reports.

use super::{LOOP, replays_to};
use mon_main::Status;
use std::alloc::{AllocError, Global};
use std::test::Fail;

/// A plan of a program, with the report of its run.
#[derive(Clone, Copy)]
pub(super) struct Example {
    pub(super) program: &'static str,
    pub(super) plan: &'static str,
    pub(super) report: &'static str,
}

/// The first of these plans that is reported otherwise.
pub(super) fn first_other(
    alloc: Global,
    examples: &[Example],
) -> Result<Option<Example>, AllocError> {
    for one in examples {
        if !replays_to(alloc, one.program, one.plan, Status::Done, one.report)? {
            return Ok(Some(*one));
        }
    }
    Ok(None)
}

const TWICE: &str = "def a(n):
    return b(n) + 1
def b(n):
    return n * 2
";

const PRINTED: &str = "def p(x):
    print(x)
    return len(\"ab\")
";

const TWO_CALLERS: &str = "def x(n):
    return n
def y(n):
    return n
def a(n):
    return x(n) + y(n)
def b(n):
    return y(n) + x(n)
";

/// A loop: each line heard once; off and on again, which leaves what is off as it is, and then restarted; turned on within a
/// line.
const LOOPS: [Example; 3] = [
    Example {
        program: LOOP,
        plan: "steps 100
thread f 3
before
use_tool_id 1 t
register_callback 1 LINE once
set_events 1 LINE
",
        report: "journal before use_tool_id 1 t = None
journal before register_callback 1 LINE once = None at 0
journal before set_events 1 LINE = None at 0
thread 0 f
rec 1 1 LINE f 2
rec 3 1 LINE f 3
rec 7 1 LINE f 4
rec 34 1 LINE f 5
disable 1 1 LINE f 2
disable 3 1 LINE f 6
disable 7 1 LINE f 14
disable 34 1 LINE f 24
end 36 returned 3
",
    },
    Example {
        program: LOOP,
        plan: "steps 100
thread f 3
before
use_tool_id 1 t
register_callback 1 LINE once
set_events 1 LINE
script
set_events 1 0
set_events 1 LINE
restart_events
schedule
turn 0 8
call 0
call 0
turn 0 9
call 0
",
        report: "journal before use_tool_id 1 t = None
journal before register_callback 1 LINE once = None at 0
journal before set_events 1 LINE = None at 0
journal script 0 set_events 1 0 = None at 8
journal script 0 set_events 1 LINE = None at 8
journal script 0 restart_events = None at 17
thread 0 f
rec 1 1 LINE f 2
rec 3 1 LINE f 3
rec 7 1 LINE f 4
rec 21 1 LINE f 3
rec 25 1 LINE f 4
rec 34 1 LINE f 5
disable 1 1 LINE f 2
disable 3 1 LINE f 6
disable 7 1 LINE f 14
disable 21 1 LINE f 6
disable 25 1 LINE f 14
disable 34 1 LINE f 24
end 36 returned 3
",
    },
    Example {
        program: LOOP,
        plan: "steps 100
thread f 3
before
use_tool_id 1 t
register_callback 1 LINE keep
script
set_events 1 LINE
schedule
turn 0 9
call 0
",
        report: "journal before use_tool_id 1 t = None
journal before register_callback 1 LINE keep = None at 0
journal script 0 set_events 1 LINE = None at 9
thread 0 f
rec 12 1 LINE f 3
rec 16 1 LINE f 4
rec 21 1 LINE f 3
rec 25 1 LINE f 4
rec 30 1 LINE f 3
rec 34 1 LINE f 5
end 36 returned 3
",
    },
];

/// One function alone, and from the end of the first thread on all; two functions, each turned off by the thread that calls it
/// first.
const LOCALS: [Example; 2] = [
    Example {
        program: TWICE,
        plan: "steps 100
thread a 5
thread a 5
before
use_tool_id 1 t
register_callback 1 LINE keep
set_local_events 1 b LINE
script
set_events 1 LINE
schedule
turn 0 12
call 0
",
        report: "journal before use_tool_id 1 t = None
journal before register_callback 1 LINE keep = None at 0 0
journal before set_local_events 1 b LINE = None at 0 0
journal script 0 set_events 1 LINE = None at 12 0
thread 0 a
rec 5 1 LINE b 4
end 12 returned 11
thread 1 a
rec 1 1 LINE a 2
rec 5 1 LINE b 4
end 12 returned 11
",
    },
    Example {
        program: TWO_CALLERS,
        plan: "steps 100
thread a 1
thread b 1
before
use_tool_id 1 t
register_callback 1 PY_START once
set_local_events 1 x PY_START
set_local_events 1 y PY_START
schedule
turn 0 5
turn 1 5
",
        report: "journal before use_tool_id 1 t = None
journal before register_callback 1 PY_START once = None at 0 0
journal before set_local_events 1 x PY_START = None at 0 0
journal before set_local_events 1 y PY_START = None at 0 0
thread 0 a
rec 4 1 PY_START x 0
disable 4 1 PY_START x 0
end 15 returned 2
thread 1 b
rec 4 1 PY_START y 0
disable 4 1 PY_START y 0
end 15 returned 2
",
    },
];

/// Two tools, served by their numbers; one that is freed, and is heard as before; events that are refused; what builtins return,
/// which is heard where their calls are.
const REPLIES: [Example; 4] = [
    Example {
        program: TWICE,
        plan: "steps 100
thread b 5
before
use_tool_id 5 opt
use_tool_id 0 dbg
use_tool_id 5 x
use_tool_id 6 x
get_tool -1
get_tool 5
get_tool 4
set_events 3 LINE
set_events 5 PY_START
set_events 0 PY_START
register_callback 5 PY_START keep
register_callback 0 PY_START keep
register_callback 0 PY_START keep
",
        report: "journal before use_tool_id 5 opt = None
journal before use_tool_id 0 dbg = None
journal before use_tool_id 5 x = ToolInUse('opt')
journal before use_tool_id 6 x = BadTool(6)
journal before get_tool -1 = BadTool(-1)
journal before get_tool 5 = 'opt'
journal before get_tool 4 = None
journal before set_events 3 LINE = BadTool(3)
journal before set_events 5 PY_START = None at 0
journal before set_events 0 PY_START = None at 0
journal before register_callback 5 PY_START keep = None at 0
journal before register_callback 0 PY_START keep = None at 0
journal before register_callback 0 PY_START keep = keep at 0
thread 0 b
rec 0 0 PY_START b 0
rec 0 5 PY_START b 0
end 5 returned 10
",
    },
    Example {
        program: TWICE,
        plan: "steps 100
thread b 5
before
use_tool_id 1 t
register_callback 1 LINE keep
set_events 1 LINE
free_tool_id 1
get_events 1
set_events 1 0
",
        report: "journal before use_tool_id 1 t = None
journal before register_callback 1 LINE keep = None at 0
journal before set_events 1 LINE = None at 0
journal before free_tool_id 1 = None
journal before get_events 1 = LINE
journal before set_events 1 0 = BadTool(1)
thread 0 b
rec 1 1 LINE b 4
end 5 returned 10
",
    },
    Example {
        program: PRINTED,
        plan: "steps 100
before
use_tool_id 1 t
set_events 1 C_RETURN
set_events 1 CALL|C_RETURN
set_events 1 1048576
set_local_events 1 p RAISE
register_callback 1 RAISE once
register_callback 2 LINE keep
get_local_events 1 p
",
        report: "journal before use_tool_id 1 t = None
journal before set_events 1 C_RETURN = BadEvent(8)
journal before set_events 1 CALL|C_RETURN = BadEvent(10)
journal before set_events 1 1048576 = BadEvent(1048576)
journal before set_local_events 1 p RAISE = BadEvent(16384)
journal before register_callback 1 RAISE once = BadEvent(16384)
journal before register_callback 2 LINE keep = None at
journal before get_local_events 1 p = 0
",
    },
    Example {
        program: PRINTED,
        plan: "steps 100
thread p 7
before
use_tool_id 1 t
register_callback 1 C_RETURN keep
set_events 1 CALL|C_RAISE|C_RETURN
get_events 1
",
        report: "journal before use_tool_id 1 t = None
journal before register_callback 1 C_RETURN keep = None at 0
journal before set_events 1 CALL|C_RAISE|C_RETURN = None at 0
journal before get_events 1 = CALL
thread 0 p
out '7'
rec 3 1 C_RETURN p 6 <built-in print> 7
rec 7 1 C_RETURN p 14 <built-in len> 'ab'
end 9 returned 2
",
    },
];

/// The lines and the branches of a loop, counted.
const COUNTS: [Example; 2] = [
    Example {
        program: LOOP,
        plan: "steps 100
thread f 3
before
use_tool_id 1 cov
set_events 1 LINE
register_callback 1 LINE keep
report lines 1
",
        report: "journal before use_tool_id 1 cov = None
journal before set_events 1 LINE = None at 0
journal before register_callback 1 LINE keep = None at 0
thread 0 f
rec 1 1 LINE f 2
rec 3 1 LINE f 3
rec 7 1 LINE f 4
rec 12 1 LINE f 3
rec 16 1 LINE f 4
rec 21 1 LINE f 3
rec 25 1 LINE f 4
rec 30 1 LINE f 3
rec 34 1 LINE f 5
end 36 returned 3
lines 1 f 2 1
lines 1 f 3 4
lines 1 f 4 3
lines 1 f 5 1
",
    },
    Example {
        program: LOOP,
        plan: "steps 100
thread f 3
before
use_tool_id 1 cov
set_events 1 BRANCH
register_callback 1 BRANCH keep
report branches 1
",
        report: "journal before use_tool_id 1 cov = None
journal before set_events 1 BRANCH = None at 0
journal before register_callback 1 BRANCH keep = None at 0
thread 0 f
rec 6 1 BRANCH f 12 14
rec 15 1 BRANCH f 12 14
rec 24 1 BRANCH f 12 14
rec 33 1 BRANCH f 12 24
end 36 returned 3
branches 1 f 12 14 3
branches 1 f 12 24 1
",
    },
];

#[test]
fn lines_are_heard_as_scripts_turn_them_on(rt: HostRuntime) -> Result<(), Fail> {
    let other = first_other(rt.alloc(), &LOOPS)?;
    assert!(rt; other.is_none(), "of {:?}", other.map(|one| one.plan));
    Ok(())
}

#[test]
fn functions_are_heard_by_their_own_sets(rt: HostRuntime) -> Result<(), Fail> {
    let other = first_other(rt.alloc(), &LOCALS)?;
    assert!(rt; other.is_none(), "of {:?}", other.map(|one| one.plan));
    Ok(())
}

#[test]
fn calls_are_replied_to(rt: HostRuntime) -> Result<(), Fail> {
    let other = first_other(rt.alloc(), &REPLIES)?;
    assert!(rt; other.is_none(), "of {:?}", other.map(|one| one.plan));
    Ok(())
}

#[test]
fn lines_and_branches_are_counted(rt: HostRuntime) -> Result<(), Fail> {
    let other = first_other(rt.alloc(), &COUNTS)?;
    assert!(rt; other.is_none(), "of {:?}", other.map(|one| one.plan));
    Ok(())
}
