//! Plans that are faulty, and plans of several threads and scripts.

use super::{LOOP, replayed, replays_to};
use mon_main::Status;
use std::alloc::Global;
use std::test::Fail;

const TEN_THREADS: &str =
    "steps 10\nthread f 1\nthread f 1\nthread f 1\nthread f 1\nthread f 1\nthread f 1\nthread f 1\nthread f 1\nthread f 1\n";

/// Faulty plans, and the lines that say so.
const FAULTS: [(&str, &str); 10] = [
    (TEN_THREADS, "plan 10 TooMany\n"),
    (
        "steps 200000\nthread f 1\nthread f 1\nthread f 1\n",
        "plan 4 TooMany\n",
    ),
    ("steps 10\nthread f\n", "plan 2 Number\n"),
    ("steps 10\nthread zz 1\n", "plan 2 Name\n"),
    ("steps 200001\n", "plan 1 Number\n"),
    ("", "plan 1 Order\n"),
    ("# nothing\n\nstep 1\n", "plan 3 Word\n"),
    ("thread f 1\n", "plan 1 Order\n"),
    (
        "steps 10\nbefore\nuse_tool_id 1 t\nset_events 1 LINES\n",
        "plan 4 Name\n",
    ),
    ("steps 10\nschedule\nturn 0 1\n", "plan 3 Number\n"),
];

#[test]
fn a_faulty_plan_is_said(rt: HostRuntime) -> Result<(), Fail> {
    assert_eq!(rt; Status::Plan.code(), 4);
    for (plan, line) in FAULTS {
        assert!(rt;
            replays_to(rt.alloc(), LOOP, plan, Status::Plan, line)?,
            "of {plan:?}"
        );
    }
    Ok(())
}

#[test]
fn a_plan_of_262145_bytes_is_too_long(rt: HostRuntime) -> Result<(), Fail> {
    let alloc = rt.alloc();
    let mut plan = String::new(alloc);
    for _ in 0..262_145 {
        plan.push_str("#")?;
    }
    assert!(rt; replays_to(alloc, LOOP, plan.as_str(), Status::Plan, "plan 0 TooMany\n")?);
    Ok(())
}

fn runs_to(alloc: Global, plan: &str, want: &str) -> Result<bool, std::alloc::AllocError> {
    replays_to(alloc, LOOP, plan, Status::Done, want)
}

/// Two threads in turns; between them a script begins to listen, and stops again.
const TWO_THREADS: &str =
    "steps 100\nthread f 1\nthread f 0\nbefore\nuse_tool_id 2 spy\nregister_callback 2 LINE once\nscript\nset_events 2 LINE\nset_events 2 0\nschedule\nturn 0 4\ncall 0\nturn 1 5\nturn 0 5\n";

const TWO_REPORTS: &str =
    "journal before use_tool_id 2 spy = None\njournal before register_callback 2 LINE once = None at 0 0\njournal script 0 set_events 2 LINE = None at 4 0\njournal script 0 set_events 2 0 = None at 9 5\nthread 0 f\nrec 7 2 LINE f 4\ndisable 7 2 LINE f 14\nend 18 returned 1\nthread 1 f\nrec 1 2 LINE f 2\nrec 3 2 LINE f 3\ndisable 1 2 LINE f 2\ndisable 3 2 LINE f 6\nend 9 returned 0\n";

#[test]
fn threads_and_scripts_follow_the_schedule(rt: HostRuntime) -> Result<(), Fail> {
    assert!(rt; runs_to(rt.alloc(), TWO_THREADS, TWO_REPORTS)?);
    Ok(())
}

/// No thread: the calls alone.
#[test]
fn a_plan_without_threads_is_its_calls(rt: HostRuntime) -> Result<(), Fail> {
    let plan = "steps 0\nbefore\nget_tool 3\nuse_tool_id 6 t\nscript\nrestart_events\n";
    let want =
        "journal before get_tool 3 = None\njournal before use_tool_id 6 t = BadTool(6)\njournal script 0 restart_events = None at\n";
    assert!(rt; runs_to(rt.alloc(), plan, want)?);
    Ok(())
}

/// Two threads that keep the lines of the loop, and what the plan asks to be counted of them.
const COUNTED: &str =
    "steps 100\nthread f 1\nthread f 0\nbefore\nuse_tool_id 2 spy\nregister_callback 2 LINE keep\nset_events 2 LINE\nreport coverage 2\nreport lines 2\nreport calls 2\nreport lines 1\n";

const ROWS: &str =
    "coverage 2 f 2 3 4 5\nlines 2 f 2 2\nlines 2 f 3 3\nlines 2 f 4 1\nlines 2 f 5 2\n";

#[test]
fn rows_are_counted_over_all_threads(rt: HostRuntime) -> Result<(), Fail> {
    let (status, written) = replayed(rt.alloc(), LOOP, COUNTED)?;
    assert_eq!(rt; status, Status::Done);
    assert!(rt; written.as_slice().ends_with(ROWS.as_bytes()));
    Ok(())
}
