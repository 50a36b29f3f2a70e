//! The first pass takes in the passes of threads that have ended.
ghost use Rattle.std.specs.Prelude.{◌≡◌, ◌+◌, ◌<◌, length, All, Option};
ghost use Rattle.mon_gate.specs.Seats.{Belongs};
ghost use Rattle.mon_gate.specs.declared.view.Phase.TheVariants.{Idle as IdleNow};
ghost use Rattle.mon_control.specs.View.{Shown};
ghost use Rattle.mon_run.specs.Tasks.{HasWorked, IsWorked};
ghost use Rattle.mon_run.specs.Crowding.{Gathered};

use crate::tasks::Task;
use crate::thread_task::Finished;
use mon_code::Program;
use mon_forms::Workload;
use mon_gate::{Gate, Pass, join, settle};
use mon_recorders::ThreadReport;
use sqlite_items::Items;

// Takes in a thread's pass, and puts its report at its number.
fn take_in(
    gate: &Gate,
    program: &Program,
    plan: &Workload,
    home: &mut Pass,
    slots: &mut Items<Option<ThreadReport>>,
    one: Finished,
)
    requires gate { Belongs home.old.chair gate.now }
    requires idle { home.old.chair.me.0.phase ≡ IdleNow }
    requires wide { length slots.old ≡ length plan.now.threads }
    requires worked { HasWorked program.now plan.now home.old.chair.me.0.first gate.now one }
    ensures gate { Belongs home.new.chair gate.now }
    ensures idle { home.new.chair.me.0.phase ≡ IdleNow }
    ensures wide { length slots.new ≡ length slots.old }
    ensures ended { length home.new.chair.me.0.ended ≡ length home.old.chair.me.0.ended + 1 }
    ensures tickets { home.new.chair.me.0.tickets ≡ home.old.chair.me.0.tickets }
    ensures first { home.new.chair.me.0.first ≡ home.old.chair.me.0.first }
    ensures gathered { (c : Shown) → Gathered program.now plan.now c home.old.chair.me.0 slots.old → Gathered program.now plan.now c home.new.chair.me.0 slots.new }
{
    let Finished {
        number,
        report,
        pass,
    } = one;
    join(home, pass, gate);
    settle(home, gate);
    slots.set(number as usize, report);
}

/// Takes in all threads' passes, and puts their reports by number.
pub fn gather_all(
    gate: &Gate,
    program: &Program,
    plan: &Workload,
    home: &mut Pass,
    slots: &mut Items<Option<ThreadReport>>,
    mut tasks: Vec<Task>,
)
    requires gate { Belongs home.old.chair gate.now }
    requires idle { home.old.chair.me.0.phase ≡ IdleNow }
    requires wide { length slots.old ≡ length plan.now.threads }
    requires worked { All (IsWorked program.now plan.now home.old.chair.me.0.first gate.now) tasks.items }
    ensures gate { Belongs home.new.chair gate.now }
    ensures idle { home.new.chair.me.0.phase ≡ IdleNow }
    ensures tickets { home.new.chair.me.0.tickets ≡ home.old.chair.me.0.tickets }
    ensures ended { length home.new.chair.me.0.ended ≡ length home.old.chair.me.0.ended + length tasks.items }
    ensures gathered { (c : Shown) → Gathered program.now plan.now c home.old.chair.me.0 slots.old → Gathered program.now plan.now c home.new.chair.me.0 slots.new }
{
    while let Some(task) = tasks.pop() {
        let Task::Worked(one) = task else {
            unreachable!()
        };
        take_in(gate, program, plan, home, slots, one);
    }
}
