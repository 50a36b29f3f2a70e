//! The plan of a size.

ghost use Rattle.std.specs.Prelude.{◌≡◌, IfOk, replicate};
ghost use Rattle.mon_gen.specs.Plans as spec;

use mon_events::{Event, EventSet};
use mon_forms::{Plan, Start, Workload};
use mon_history::{ControlCall, Policy};
use mon_values::text::Text;
use mon_values::value::Value;
use sqlite_items::Items;
use std::alloc::{AllocError, Global};

/// The most steps that each thread does.
const STEPS: u64 = 100_000;

/// What each thread is called with.
const ARGUMENT: i64 = 20;

const TOOL: i64 = 1;

// A thread that adds up what so many loops return.
fn start(alloc: Global, loops: u16) -> Result<Start, AllocError>
    ensures { IfOk result (λ s. s ≡ spec.start loops) }
{
    let mut args = Items::new(alloc);
    args.push(Value::Int(ARGUMENT))?;
    Ok(Start { code: loops, args })
}

// Four threads that do so.
fn threads(alloc: Global, loops: u16) -> Result<Items<Start>, AllocError>
    ensures { IfOk result (λ threads. threads ≡ replicate 4 (spec.start loops)) }
{
    let mut threads = Items::new(alloc);
    threads.push(start(alloc, loops)?)?;
    threads.push(start(alloc, loops)?)?;
    threads.push(start(alloc, loops)?)?;
    threads.push(start(alloc, loops)?)?;
    Ok(threads)
}

// The control calls by which a tool keeps the lines.
fn calls(alloc: Global) -> Result<Items<ControlCall>, AllocError>
    ensures { IfOk result (λ calls. calls ≡ spec.calls) }
{
    let lines = EventSet::only(Event::Line);
    let mut calls = Items::new(alloc);
    calls.push(ControlCall::UseToolId {
        id: TOOL,
        name: Text::from_ascii(alloc, "gen")?,
    })?;
    calls.push(ControlCall::RegisterCallback {
        id: TOOL,
        event: lines,
        policy: Policy::Keep,
    })?;
    calls.push(ControlCall::SetEvents {
        id: TOOL,
        set: lines,
    })?;
    Ok(calls)
}

/// The plan that runs the program with so many loops: four threads call `go` with 20, and tool 1 keeps a record of each line.
pub fn generated_plan(alloc: Global, loops: u16) -> Result<Plan, AllocError>
    ensures { IfOk result (λ plan. plan ≡ spec.generated_plan loops) }
{
    Ok(Plan {
        workload: Workload {
            steps: STEPS,
            threads: threads(alloc, loops)?,
            before: calls(alloc)?,
            scripts: Items::new(alloc),
        },
        schedule: Items::new(alloc),
        reports: Items::new(alloc),
    })
}
