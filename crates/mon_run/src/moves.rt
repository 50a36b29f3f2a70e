//! The moves of a plan's run on one thread.
ghost use Rattle.std.specs.Prelude.{◌≡◌, ◌+◌, ◌<◌, ◌≤◌, map, length, ℕ, slice_get, OnOk, Some};
ghost use Rattle.mon_machine.specs.Advances.{Progress};
ghost use Rattle.mon_forms.specs.Fits.{FitsCall, FitsMove, FitsWorkload};
ghost use Rattle.mon_run.specs.Serial.{asks, asks_next, next_call, turn, moves_one};
ghost use Rattle.mon_run.specs.Replaying.{Holds, IsDone, ProperPlan, calls_left, progress_all, world_of};

use crate::alone::{call_alone, steps_alone};
use crate::fault::RunFault;
use mon_board::PlainBoard;
use mon_code::Program;
use mon_control::Control;
use mon_forms::{Move, Workload};
use mon_history::{ControlCall, Who};
use mon_interp::Thread;

/// A plan's run on one thread.
#[derive(Drop)]
pub struct Replay {
    pub board: PlainBoard,
    pub control: Control,
    pub threads: Vec<Thread>,
    /// How many calls each script has made.
    pub made: Vec<usize>,
}

/// Makes a control call.
pub fn ask(
    program: &Program,
    plan: &Workload,
    replay: &mut Replay,
    who: Who,
    call: &ControlCall,
) -> Result<(), RunFault>
    requires holds { Holds program.now plan.now replay.old.control replay.old.board.chair.me.0 (progress_all replay.old.threads.items) replay.old.made.items }
    requires fits { FitsCall program.now call.now }
    requires few { length replay.old.control.journal < 256 }
    ensures holds { OnOk result (Holds program.now plan.now replay.new.control replay.new.board.chair.me.0 (progress_all replay.new.threads.items) replay.new.made.items) }
    ensures world { OnOk result (world_of replay.new.board.chair.me.0 replay.new.control.journal (progress_all replay.new.threads.items) replay.new.made.items ≡ asks who call.now (world_of replay.old.board.chair.me.0 replay.old.control.journal (progress_all replay.old.threads.items) replay.old.made.items)) }
    ensures calls { OnOk result (length replay.new.control.journal ≡ length replay.old.control.journal + 1) }
    ensures made { replay.new.made ≡ replay.old.made }
{
    call_alone(program, &mut replay.board, &mut replay.control, who, call)
}

/// Lets a thread do so many steps, or fewer where it ends or meets the plan's bound.
pub fn take_turn(
    program: &Program,
    plan: &Workload,
    replay: &mut Replay,
    number: u8,
    steps: u64,
) -> Result<(), RunFault>
    requires proper { ProperPlan program.now plan.now }
    requires plan { FitsWorkload program.now plan.now }
    requires low { number < length plan.now.threads }
    requires holds { Holds program.now plan.now replay.old.control replay.old.board.chair.me.0 (progress_all replay.old.threads.items) replay.old.made.items }
    ensures holds { OnOk result (Holds program.now plan.now replay.new.control replay.new.board.chair.me.0 (progress_all replay.new.threads.items) replay.new.made.items) }
    ensures world { OnOk result (world_of replay.new.board.chair.me.0 replay.new.control.journal (progress_all replay.new.threads.items) replay.new.made.items ≡ turn program.now plan.now.steps number steps (world_of replay.old.board.chair.me.0 replay.old.control.journal (progress_all replay.old.threads.items) replay.old.made.items)) }
    ensures done { OnOk result (steps ≡ plan.now.steps → (q : Progress) → slice_get (progress_all replay.new.threads.items) number ≡ Some q → IsDone plan.now.steps q) }
    ensures others { OnOk result ((u : ℕ) → (number ≡ u → ⊥) → slice_get (progress_all replay.new.threads.items) u ≡ slice_get (progress_all replay.old.threads.items) u) }
    ensures control { replay.new.control ≡ replay.old.control }
    ensures made { replay.new.made ≡ replay.old.made }
{
    let thread = &mut replay.threads[number as usize];
    let left = plan.steps - thread.steps();
    steps_alone(program, &mut replay.board, thread, number, steps.min(left))
}

/// Makes the next call of a script, if it has one left.
pub fn ask_next(
    program: &Program,
    plan: &Workload,
    replay: &mut Replay,
    number: u8,
) -> Result<(), RunFault>
    requires plan { FitsWorkload program.now plan.now }
    requires low { number < length plan.now.scripts }
    requires holds { Holds program.now plan.now replay.old.control replay.old.board.chair.me.0 (progress_all replay.old.threads.items) replay.old.made.items }
    requires few { length replay.old.control.journal + calls_left plan.now.scripts replay.old.made.items ≤ 256 }
    ensures holds { OnOk result (Holds program.now plan.now replay.new.control replay.new.board.chair.me.0 (progress_all replay.new.threads.items) replay.new.made.items) }
    ensures world { OnOk result (world_of replay.new.board.chair.me.0 replay.new.control.journal (progress_all replay.new.threads.items) replay.new.made.items ≡ asks_next number (next_call plan.now (world_of replay.old.board.chair.me.0 replay.old.control.journal (progress_all replay.old.threads.items) replay.old.made.items) number) (world_of replay.old.board.chair.me.0 replay.old.control.journal (progress_all replay.old.threads.items) replay.old.made.items)) }
    ensures few { OnOk result (length replay.new.control.journal + calls_left plan.now.scripts replay.new.made.items ≤ 256) }
{
    let Some(script) = plan.scripts.get(number as usize) else {
        unreachable!()
    };
    let made = replay.made[number as usize];
    if script.len() <= made {
        return Ok(());
    }
    let call = &script.as_slice()[made];
    ask(program, plan, replay, Who::Script(number), call)?;
    replay.made[number as usize] = made + 1;
    Ok(())
}

/// Makes a move of the schedule.
pub fn make_move(
    program: &Program,
    plan: &Workload,
    replay: &mut Replay,
    one: &Move,
) -> Result<(), RunFault>
    requires proper { ProperPlan program.now plan.now }
    requires plan { FitsWorkload program.now plan.now }
    requires fits { FitsMove plan.now one.now }
    requires holds { Holds program.now plan.now replay.old.control replay.old.board.chair.me.0 (progress_all replay.old.threads.items) replay.old.made.items }
    requires few { length replay.old.control.journal + calls_left plan.now.scripts replay.old.made.items ≤ 256 }
    ensures holds { OnOk result (Holds program.now plan.now replay.new.control replay.new.board.chair.me.0 (progress_all replay.new.threads.items) replay.new.made.items) }
    ensures world { OnOk result (world_of replay.new.board.chair.me.0 replay.new.control.journal (progress_all replay.new.threads.items) replay.new.made.items ≡ moves_one program.now plan.now one.now (world_of replay.old.board.chair.me.0 replay.old.control.journal (progress_all replay.old.threads.items) replay.old.made.items)) }
    ensures few { OnOk result (length replay.new.control.journal + calls_left plan.now.scripts replay.new.made.items ≤ 256) }
{
    match one {
        Move::Turn(number, steps) => take_turn(program, plan, replay, *number, *steps),
        Move::Call(number) => ask_next(program, plan, replay, *number),
    }
}
