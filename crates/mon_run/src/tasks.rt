//! The tasks of a run over threads: one for each thread, and the controller.
ghost use Rattle.std.specs.Prelude.{◌≡◌, ◌<◌, ℕ, length, slice_index_or};
ghost use Rattle.mon_words.specs.declared.history.Board.{Board as BoardOf};
ghost use Rattle.mon_forms.specs.Fits.{FitsWorkload};
ghost use Rattle.mon_run.specs.Tasks.{HasGoverned, IsDone, IsDue, MayGovern};
ghost use Rattle.mon_run.specs.declared.tasks.Task.{Task as TaskOf};

use crate::beat::Beat;
use crate::fault::RunFault;
use crate::lent::Lent;
use crate::script_calls::make_scripts;
use crate::thread_task::{Finished, work};
use mon_control::Control;
use mon_gate::{Pass, idle};
use std::mem;
use std::sync::Wait;
use std::thread::{Threads, for_each_mut};

/// The controller, before the calls of the scripts.
#[derive(Drop)]
pub struct Governor {
    pub control: Control,
    pub first: Pass,
}

/// What the controller leaves.
#[derive(Drop)]
pub struct Governed {
    pub control: Control,
    /// Whether it found memory for all calls.
    pub made: Result<(), RunFault>,
    pub home: Pass,
}

/// A task, due or done.
#[derive(Drop)]
pub enum Task {
    Work(Pass),
    Govern(Governor),
    Worked(Finished),
    Governed(Governed),
    /// It is being done.
    Taken,
}

// Makes the calls of the scripts, from the first pass and back to it.
fn govern<R: Wait, B: Beat>(lent: &Lent<'_, R, B>, governor: Governor) -> Governed
    requires may { MayGovern lent.now.program.now lent.now.plan.now lent.now.gate.now governor }
    requires fits { FitsWorkload lent.now.program.now lent.now.plan.now }
    ensures { HasGoverned lent.now.program.now lent.now.plan.now lent.now.gate.now governor result }
{
    let Governor { mut control, first } = governor;
    let (made, controller) = make_scripts(lent, &mut control, idle(first));
    Governed {
        control,
        made,
        home: controller.end(),
    }
}

// What a task leaves.
fn done<R: Wait, B: Beat>(lent: &Lent<'_, R, B>, task: Task) -> Task
    requires fits { FitsWorkload lent.now.program.now lent.now.plan.now }
    requires due { (board : BoardOf) × IsDue lent.now.program.now lent.now.plan.now board lent.now.gate.now task }
    ensures done { (board : BoardOf) → IsDue lent.now.program.now lent.now.plan.now board lent.now.gate.now task → IsDone lent.now.program.now lent.now.plan.now board lent.now.gate.now task result }
{
    match task {
        Task::Work(pass) => Task::Worked(work(lent, pass)),
        Task::Govern(governor) => Task::Governed(govern(lent, governor)),
        _ => unreachable!(),
    }
}

// Does a task in its place.
fn do_task<R: Wait, B: Beat>(lent: &Lent<'_, R, B>, task: &mut Task)
    requires fits { FitsWorkload lent.now.program.now lent.now.plan.now }
    requires due { (board : BoardOf) × IsDue lent.now.program.now lent.now.plan.now board lent.now.gate.now task.old }
    ensures done { (board : BoardOf) → IsDue lent.now.program.now lent.now.plan.now board lent.now.gate.now task.old → IsDone lent.now.program.now lent.now.plan.now board lent.now.gate.now task.old task.new }
{
    *task = done(lent, mem::replace(task, Task::Taken));
}

/// Does all tasks at once.
pub fn do_tasks<R: Threads + Wait + Sync, B: Beat + Sync>(lent: &Lent<'_, R, B>, tasks: &mut [Task])
    requires fits { FitsWorkload lent.now.program.now lent.now.plan.now }
    requires some { 0 < length tasks.old }
    requires due { (board : BoardOf) × ((i : ℕ) (d : TaskOf) → i < length tasks.old → IsDue lent.now.program.now lent.now.plan.now board lent.now.gate.now (slice_index_or tasks.old i d)) }
    ensures length { length tasks.new ≡ length tasks.old }
    ensures done { (board : BoardOf) → ((i : ℕ) (d : TaskOf) → i < length tasks.old → IsDue lent.now.program.now lent.now.plan.now board lent.now.gate.now (slice_index_or tasks.old i d)) → (i : ℕ) (d : TaskOf) → i < length tasks.old → IsDone lent.now.program.now lent.now.plan.now board lent.now.gate.now (slice_index_or tasks.old i d) (slice_index_or tasks.new i d) }
{
    let threads = tasks.len();
    for_each_mut(
        lent.rt,
        tasks,
        threads,
        &|_number: usize, task: &mut Task|
            requires { FitsWorkload lent.now.program.now lent.now.plan.now × ((board : BoardOf) × IsDue lent.now.program.now lent.now.plan.now board lent.now.gate.now task.now) }
            ensures { (board : BoardOf) → IsDue lent.entry.now.program.now lent.entry.now.plan.now board lent.entry.now.gate.now task.entry.now → IsDone lent.entry.now.program.now lent.entry.now.plan.now board lent.entry.now.gate.now task.entry.now task.exit.now }
        { do_task(lent, task) },
    );
}
