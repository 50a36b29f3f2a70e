//! A plan's run over threads, from the first pass of a gate and back to it.
ghost use Rattle.std.specs.Prelude.{◌≡◌, ◌+◌, ◌≤◌, ◌<◌, List, map, length, [], All, IfOk, Some, vec_capacity};
ghost use Rattle.mon_words.specs.History.{base_in};
ghost use Rattle.mon_words.specs.declared.history.Board.{Board as BoardOf};
ghost use Rattle.mon_words.specs.Standing.{board_of};
ghost use Rattle.mon_words.specs.Words.{first_words as words_of};
ghost use Rattle.mon_gate.specs.Rule.{first_view};
ghost use Rattle.mon_gate.specs.Seats.{Belongs};
ghost use Rattle.mon_gate.specs.declared.view.Phase.TheVariants.{Idle as IdleNow};
ghost use Rattle.mon_history.specs.Histories.{entries};
ghost use Rattle.mon_history.specs.declared.journal.JournalLine.{JournalLine as LineOf};
ghost use Rattle.mon_forms.specs.Fits.{FitsProgram, FitsWorkload};
ghost use Rattle.mon_run.specs.Turns.{AllZero, asked, first_calls};
ghost use Rattle.mon_run.specs.Scripts.{in_order, longest, rounds};
ghost use Rattle.mon_run.specs.Reports.{IsLegal, LegalBy};
ghost use Rattle.mon_run.specs.Replaying.{ProperPlan};
ghost use Rattle.mon_run.specs.Controlling.{Governs, Grown, calls_due};
ghost use Rattle.mon_run.specs.Crowding.{Gathered, IsHome};
ghost use Rattle.mon_run.specs.Tasks.{AreListed, HasGoverned, IsWorked};
ghost use Rattle.mon_run.specs.declared.tasks.Governed.{Governed as GovernedOf};
ghost use Rattle.mon_run.specs.declared.tasks.Governor.{Governor as GovernorOf};
ghost use Rattle.mon_run.specs.declared.tasks.Task.{Task as TaskOf};

use crate::beat::Beat;
use crate::fault::RunFault;
use crate::gather::gather_all;
use crate::lent::Lent;
use crate::script_calls::make_before;
use crate::tasks::{Governed, Governor, Task, do_tasks};
use mon_code::Program;
use mon_control::Control;
use mon_forms::{Plan, Report, Workload};
use mon_gate::{Gate, Pass, idle, settle, split};
use mon_recorders::ThreadReport;
use mon_words::first_words;
use sqlite_items::Items;
use std::alloc::{AllocError, Global};
use std::sync::Wait;
use std::thread::Threads;

// What a run needs memory for before it begins.
#[derive(Drop)]
struct Room {
    control: Control,
    tasks: Vec<Task>,
    slots: Items<Option<ThreadReport>>,
}

// Room for the report of each thread.
fn no_reports(alloc: Global, plan: &Workload) -> Result<Items<Option<ThreadReport>>, AllocError>
    ensures { IfOk result (λ slots. length slots ≡ length plan.now.threads) }
{
    let mut slots = Items::new(alloc);
    for _turn in 0..plan.threads.len() {
        slots.push(None)?;
    }
    Ok(slots)
}

fn make_room(alloc: Global, program: &Program, plan: &Workload) -> Result<Room, RunFault>
    requires { FitsWorkload program.now plan.now }
    ensures journal { IfOk result (λ r. r.control.journal ≡ []) }
    ensures threads { IfOk result (λ r. r.control.threads ≡ length plan.now.threads) }
    ensures codes { IfOk result (λ r. length program.now.codes ≡ r.control.codes) }
    ensures tasks { IfOk result (λ r. r.tasks.items ≡ []) }
    ensures room { IfOk result (λ r. length plan.now.threads < vec_capacity r.tasks) }
    ensures slots { IfOk result (λ r. length r.slots ≡ length plan.now.threads) }
{
    Ok(Room {
        control: Control::new(alloc, program, plan.threads.len() as u8)?,
        tasks: Vec::with_capacity(alloc, plan.threads.len() + 1)?,
        slots: no_reports(alloc, plan)?,
    })
}

// The reports, if each thread has one.
fn all_reports(
    alloc: Global,
    mut slots: Items<Option<ThreadReport>>,
) -> Result<Items<ThreadReport>, RunFault>
    ensures { IfOk result (λ reports. map Some reports ≡ slots) }
{
    let Some(last) = slots.pop() else {
        return Ok(Items::new(alloc));
    };
    let Some(report) = last else {
        return Err(RunFault::Memory);
    };
    let mut reports = all_reports(alloc, slots)?;
    reports.push(report)?;
    Ok(reports)
}

// The tasks of a run: one for each thread, and the controller's last.
fn list_tasks<R, B>(
    lent: &Lent<'_, R, B>,
    control: Control,
    first: Pass,
    tasks: Vec<Task>,
) -> Vec<Task>
    requires gate { Belongs first.chair lent.now.gate.now }
    requires idle { first.chair.me.0.phase ≡ IdleNow }
    requires threads { first.chair.me.0.threads ≡ length lent.now.plan.now.threads }
    requires tickets { first.chair.me.0.tickets ≡ length lent.now.plan.now.threads }
    requires bases { map base_in first.chair.me.0.first.cells ≡ lent.now.program.now.bases }
    requires governs { Governs lent.now.program.now control first.chair.me.0 }
    requires few { length control.journal + calls_due 0 0 lent.now.plan.now.scripts ≤ 256 }
    requires empty { tasks.items ≡ [] }
    requires room { length lent.now.plan.now.threads < vec_capacity tasks }
    ensures listed { (a : GovernorOf) × AreListed lent.now.program.now lent.now.plan.now first.chair.me.0.first lent.now.gate.now a result.items × (a.control ≡ control) × (a.first.chair.me.0 ≡ record first.chair.me.0 { tickets = 0 }) }
{
    let mut first = first;
    let mut tasks = tasks;
    for _turn in 0..lent.plan.threads.len() {
        let job = split(&mut first, lent.gate);
        let Ok(()) = tasks.push(Task::Work(job)) else {
            unreachable!()
        };
    }
    let governor = Governor { control, first };
    let Ok(()) = tasks.push(Task::Govern(governor)) else {
        unreachable!()
    };
    tasks
}

// What the controller left.
fn governed_in(task: Task) -> Governed
    requires { (b : GovernedOf) × (task ≡ TaskOf.Governed b) }
    ensures { task ≡ TaskOf.Governed result }
{
    let Task::Governed(governed) = task else {
        unreachable!()
    };
    governed
}

// Does the tasks of a run: what the controller leaves, and what the threads leave.
fn run_tasks<R: Threads + Wait + Sync, B: Beat + Sync>(
    lent: &Lent<'_, R, B>,
    tasks: Vec<Task>,
) -> (Governed, Vec<Task>)
    requires fits { FitsWorkload lent.now.program.now lent.now.plan.now }
    requires listed { (board : BoardOf) × (a : GovernorOf) × AreListed lent.now.program.now lent.now.plan.now board lent.now.gate.now a tasks.items }
    ensures done { (board : BoardOf) → (a : GovernorOf) → AreListed lent.now.program.now lent.now.plan.now board lent.now.gate.now a tasks.items → HasGoverned lent.now.program.now lent.now.plan.now lent.now.gate.now a result.0 × All (IsWorked lent.now.program.now lent.now.plan.now board lent.now.gate.now) result.1.items × (length result.1.items ≡ length lent.now.plan.now.threads) }
{
    let mut tasks = tasks;
    do_tasks(lent, tasks.as_mut_slice());
    let Some(last) = tasks.pop() else {
        unreachable!()
    };
    (governed_in(last), tasks)
}

// The report, once all threads were taken in.
fn finish<R, B>(
    lent: &Lent<'_, R, B>,
    control: Control,
    home: &mut Pass,
    slots: Items<Option<ThreadReport>>,
) -> Result<Report, RunFault>
    requires gate { Belongs home.old.chair lent.now.gate.now }
    requires gathered { Gathered lent.now.program.now lent.now.plan.now control home.old.chair.me.0 slots }
    requires all { length home.old.chair.me.0.ended ≡ length lent.now.plan.now.threads }
    requires proper { ProperPlan lent.now.program.now lent.now.plan.now }
    ensures gate { Belongs home.new.chair lent.now.gate.now }
    ensures view { home.new.chair.me.0 ≡ record home.old.chair.me.0 { seen = home.new.chair.me.0.seen } }
    ensures legal { (early : List LineOf) → asked early ≡ first_calls lent.now.plan.now.before → AllZero early → Grown early control.journal (rounds lent.now.plan.now.scripts (longest lent.now.plan.now.scripts)) → IfOk result (λ r. LegalBy lent.now.program.now lent.now.plan.now r (entries 0 home.new.chair.me.0.seen) × (asked r.journal.lines ≡ in_order lent.now.plan.now)) }
{
    settle(home, lent.gate);
    let threads = all_reports(lent.alloc, slots)?;
    Ok(Report {
        journal: control.into_journal(),
        threads,
    })
}

// Runs a plan from the first pass, with room for what it leaves.
fn run_from<R: Threads + Wait + Sync, B: Beat + Sync>(
    lent: &Lent<'_, R, B>,
    room: Room,
    pass: Pass,
) -> (Result<Report, RunFault>, Pass)
    requires gate { Belongs pass.chair lent.now.gate.now }
    requires idle { pass.chair.me.0.phase ≡ IdleNow }
    requires threads { pass.chair.me.0.threads ≡ length lent.now.plan.now.threads }
    requires tickets { pass.chair.me.0.tickets ≡ length lent.now.plan.now.threads }
    requires ended { pass.chair.me.0.ended ≡ [] }
    requires bases { map base_in pass.chair.me.0.first.cells ≡ lent.now.program.now.bases }
    requires governs { Governs lent.now.program.now room.control pass.chair.me.0 }
    requires fits { FitsWorkload lent.now.program.now lent.now.plan.now }
    requires proper { ProperPlan lent.now.program.now lent.now.plan.now }
    requires journal { room.control.journal ≡ [] }
    requires empty { room.tasks.items ≡ [] }
    requires places { length lent.now.plan.now.threads < vec_capacity room.tasks }
    requires slots { length room.slots ≡ length lent.now.plan.now.threads }
    ensures gate { Belongs result.1.chair lent.now.gate.now }
    ensures home { IsHome lent.now.plan.now result.1.chair.me.0 }
    ensures legal { IfOk result.0 (λ r. LegalBy lent.now.program.now lent.now.plan.now r (entries 0 result.1.chair.me.0.seen) × (asked r.journal.lines ≡ in_order lent.now.plan.now)) }
{
    let Room {
        mut control,
        tasks,
        mut slots,
    } = room;
    let (before, controller) = make_before(lent, &mut control, idle(pass));
    let first = controller.end();
    if let Err(fault) = before {
        return (Err(fault), first);
    }
    let tasks = list_tasks(lent, control, first, tasks);
    let (governed, workers) = run_tasks(lent, tasks);
    let Governed {
        control,
        made,
        mut home,
    } = governed;
    gather_all(
        lent.gate,
        lent.program,
        lent.plan,
        &mut home,
        &mut slots,
        workers,
    );
    if let Err(fault) = made {
        return (Err(fault), home);
    }
    let report = finish(lent, control, &mut home, slots);
    (report, home)
}

/// Runs a plan over the words of a gate: the calls before all threads, and then each thread to its end or to the plan's bound
/// beside one controller, which makes the calls of the scripts in turn. The pass is the first of the gate, as it was made. It
/// is handed back after all other passes were joined into it.
///
/// The report is legal by the order of the history that the pass has seen then. The only fault is want of memory.
pub fn threads_on<R: Threads + Wait + Sync, B: Beat + Sync>(
    rt: &R,
    alloc: Global,
    program: &Program,
    bases: &[u8],
    plan: &Plan,
    beat: &B,
    gate: &Gate,
    pass: Pass,
) -> (Result<Report, RunFault>, Pass)
    requires fits { FitsProgram program.now plan.now }
    requires bases { bases.now ≡ program.now.bases }
    requires gate { Belongs pass.chair gate.now }
    requires first { pass.chair.me.0 ≡ first_view (length plan.now.workload.threads) (board_of (words_of bases.now)) }
    ensures gate { Belongs result.1.chair gate.now }
    ensures home { IsHome plan.now.workload result.1.chair.me.0 }
    ensures legal { IfOk result.0 (λ r. LegalBy program.now plan.now.workload r (entries 0 result.1.chair.me.0.seen) × (asked r.journal.lines ≡ in_order plan.now.workload)) }
{
    let _ = program.locations();
    let load = &plan.workload;
    let lent = Lent {
        rt,
        alloc,
        gate,
        program,
        plan: load,
        beat,
    };
    let Ok(room) = make_room(alloc, program, load) else {
        return (Err(RunFault::Memory), pass);
    };
    run_from(&lent, room, pass)
}

/// Runs a plan over threads, by a gate of its own.
///
/// The report is legal, and the calls of the scripts stand in its journal in turn. The only fault is want of memory.
pub fn threads<R: Threads + Wait + Sync, B: Beat + Sync>(
    rt: &R,
    alloc: Global,
    program: &Program,
    bases: &[u8],
    plan: &Plan,
    beat: &B,
) -> Result<Report, RunFault>
    requires fits { FitsProgram program.now plan.now }
    requires bases { bases.now ≡ program.now.bases }
    ensures legal { IfOk result (IsLegal program.now plan.now.workload) }
    ensures order { IfOk result (λ r. asked r.journal.lines ≡ in_order plan.now.workload) }
{
    let words = first_words(alloc, bases)?;
    let count = plan.workload.threads.len() as u8;
    let (gate, pass) = Gate::new(alloc, count, words.as_slice())?;
    let (report, _home) = threads_on(rt, alloc, program, bases, plan, beat, &gate, pass);
    report
}
