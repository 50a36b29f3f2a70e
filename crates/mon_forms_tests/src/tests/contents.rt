use super::*;
use mon_events::EventSet;
use mon_forms::{Move, Plan, ReportKind, ReportLine, Start};
use mon_history::{ControlCall, Policy};
use mon_values::text::Text;
use mon_values::value::Value;

const WHOLE: &[u8] = b"# a plan\nsteps 0400\n\nthread f -007\n\tthread  two 'a,b'\t'' \nbefore\r\n
use_tool_id 1 a_B-9.z\nfree_tool_id -0\nget_tool -1\nset_events 5 LINE|CALL|LINE\nget_events 6\nset_local_events 1 two 004294967295
script\nget_local_events 1 none\nregister_callback 1 RAISE once\nregister_callback 1 0 None\nscript\nscript\nregister_callback 9 LINE keep\nrestart_events
schedule\nturn 1 200000\ncall 2\nturn 0 0\nreport coverage 0\nreport lines 5\nreport calls 1\nreport branches 2";

fn is_spelled(text: &Text, due: &str) -> bool {
    text.chars().iter().copied().eq(due.chars())
}

fn is_start(start: Option<&Start>, code: u16, due: &[&str]) -> bool {
    let Some(start) = start else {
        return false;
    };
    if start.code != code || start.args.len() != due.len() {
        return false;
    }
    for (arg, due) in start.args.as_slice().iter().zip(due) {
        match arg {
            Value::Text(text) => {
                if !is_spelled(text, due) {
                    return false;
                }
            }
            _ => return false,
        }
    }
    true
}

fn is_integer_start(start: Option<&Start>, code: u16, due: i64) -> bool {
    let Some(start) = start else {
        return false;
    };
    start.code == code && matches!(start.args.as_slice(), [Value::Int(n)] if *n == due)
}

fn has_threads(plan: &Plan) -> bool {
    let threads = &plan.workload.threads;
    threads.len() == 2
        && is_integer_start(threads.get(0), 0, -7)
        && is_start(threads.get(1), 2, &["a,b", ""])
}

/// A call as a line, with its set as a number.
fn line_of(alloc: Global, call: &ControlCall) -> Result<String, AllocError> {
    match call {
        ControlCall::UseToolId { id, name } => {
            let mut line = format!(in alloc; "use {id} ")?;
            for c in name.chars() {
                line.push(*c)?;
            }
            Ok(line)
        }
        ControlCall::FreeToolId { id } => format!(in alloc; "free {id}"),
        ControlCall::GetTool { id } => format!(in alloc; "get {id}"),
        ControlCall::SetEvents {
            id,
            set: EventSet(set),
        } => format!(in alloc; "set {id} {set}"),
        ControlCall::GetEvents { id } => format!(in alloc; "events {id}"),
        ControlCall::SetLocalEvents {
            id,
            code,
            set: EventSet(set),
        } => { format!(in alloc; "local {id} {code} {set}") }
        ControlCall::GetLocalEvents { id, code } => format!(in alloc; "get_local {id} {code}"),
        ControlCall::RegisterCallback {
            id,
            event: EventSet(set),
            policy,
        } => {
            let policy = match policy {
                Policy::Nothing => "None",
                Policy::Keep => "keep",
                Policy::Once => "once",
            };
            format!(in alloc; "register {id} {set} {policy}")
        }
        ControlCall::RestartEvents => String::from_str(alloc, "restart"),
    }
}

/// Whether calls are these lines.
fn are_calls(alloc: Global, calls: &[ControlCall], due: &[&str]) -> Result<bool, AllocError> {
    if calls.len() != due.len() {
        return Ok(false);
    }
    for (call, due) in calls.iter().zip(due) {
        if line_of(alloc, call)?.as_str() != *due {
            return Ok(false);
        }
    }
    Ok(true)
}

fn has_scripts(alloc: Global, plan: &Plan, due: &[&[&str]]) -> Result<bool, AllocError> {
    let scripts = plan.workload.scripts.as_slice();
    if scripts.len() != due.len() {
        return Ok(false);
    }
    for (script, due) in scripts.iter().zip(due) {
        if !are_calls(alloc, script.as_slice(), due)? {
            return Ok(false);
        }
    }
    Ok(true)
}

#[test]
fn a_plan_has_all_that_its_lines_say(rt: HostRuntime) -> Result<(), Fail> {
    let alloc = rt.alloc();
    let program = program(alloc)?;
    let plan = read_plan(alloc, WHOLE, &program)?;
    assert_eq!(rt; plan.workload.steps, 400);
    assert!(rt; has_threads(&plan));
    let before = [
        "use 1 a_B-9.z",
        "free 0",
        "get -1",
        "set 5 130",
        "events 6",
        "local 1 2 4294967295",
    ];
    assert!(rt; are_calls(alloc, plan.workload.before.as_slice(), &before)?);
    let first = [
        "get_local 1 1",
        "register 1 16384 once",
        "register 1 0 None",
    ];
    let last = ["register 9 128 keep", "restart"];
    assert!(rt; has_scripts(alloc, &plan, &[&first, &[], &last])?);
    let schedule = [Move::Turn(1, 200_000), Move::Call(2), Move::Turn(0, 0)];
    assert_eq!(rt; plan.schedule.as_slice(), schedule.as_slice());
    let reports = [
        ReportLine {
            kind: ReportKind::Coverage,
            tool: 0,
        },
        ReportLine {
            kind: ReportKind::Lines,
            tool: 5,
        },
        ReportLine {
            kind: ReportKind::Calls,
            tool: 1,
        },
        ReportLine {
            kind: ReportKind::Branches,
            tool: 2,
        },
    ];
    assert_eq!(rt; plan.reports.as_slice(), reports.as_slice());
    Ok(())
}
