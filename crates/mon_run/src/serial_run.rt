//! A plan's run on one thread, from the first board to the report.
ghost use Rattle.std.specs.Prelude.{◌≡◌, ◌+◌, ◌<◌, ◌≤◌, ℕ, map, length, replicate, slice_get, All, OnOk, IfOk, [], Some};
ghost use Rattle.mon_machine.specs.Advances.{Progress, nothing_done};
ghost use Rattle.mon_interp.specs.Threads.{reported};
ghost use Rattle.mon_forms.specs.Fits.{FitsMove, FitsProgram, FitsWorkload};
ghost use Rattle.mon_forms.specs.declared.plan.Move.TheVariants.{Call};
ghost use Rattle.mon_run.specs.Reports.{begins, IsLegal};
ghost use Rattle.mon_run.specs.Serial.{asks_first, moves_all, rest_of_scripts, rest_of_threads, IsSerial};
ghost use Rattle.mon_run.specs.Replaying.{Holds, IsDone, ProperPlan, calls_left, progress_all, world_of};

use crate::fault::RunFault;
use crate::moves::{Replay, ask, ask_next, make_move, take_turn};
use mon_board::PlainBoard;
use mon_code::Program;
use mon_control::Control;
use mon_forms::{Move, Plan, Report, Workload};
use mon_history::Who;
use mon_interp::Thread;
use mon_recorders::ThreadReport;
use mon_words::first_words;
use sqlite_items::Items;
use std::alloc::{AllocError, Global};

// The threads, of which none has done a step.
fn begin_all(alloc: Global, program: &Program, plan: &Workload) -> Result<Vec<Thread>, AllocError>
    requires plan { FitsWorkload program.now plan.now }
    ensures { IfOk result (λ v. progress_all v.items ≡ map (λ s. nothing_done (begins program.now s)) plan.now.threads) }
{
    let mut threads = Vec::new(alloc);
    for start in plan.threads.as_slice() {
        let Some(code) = program.code(start.code) else {
            unreachable!()
        };
        threads.push(Thread::begin(alloc, code, start.code, start.args.as_slice())?)?;
    }
    Ok(threads)
}

// No call of any script.
fn none_made(alloc: Global, plan: &Workload) -> Result<Vec<usize>, AllocError>
    ensures { IfOk result (λ v. v.items ≡ replicate (length plan.now.scripts) 0) }
{
    vec![in alloc; 0; plan.scripts.len()]
}

// The reports of the threads.
fn finish_all(alloc: Global, mut threads: Vec<Thread>) -> Result<Items<ThreadReport>, AllocError>
    ensures { IfOk result (λ reports. reports ≡ map reported (progress_all threads.items)) }
{
    let Some(last) = threads.pop() else {
        return Ok(Items::new(alloc));
    };
    let mut reports = finish_all(alloc, threads)?;
    reports.push(last.finish())?;
    Ok(reports)
}

// Makes the calls before all threads.
fn ask_first(program: &Program, plan: &Workload, replay: &mut Replay) -> Result<(), RunFault>
    requires plan { FitsWorkload program.now plan.now }
    requires holds { Holds program.now plan.now replay.old.control replay.old.board.chair.me.0 (progress_all replay.old.threads.items) replay.old.made.items }
    requires few { length replay.old.control.journal + length plan.now.before + calls_left plan.now.scripts replay.old.made.items ≤ 256 }
    ensures holds { OnOk result (Holds program.now plan.now replay.new.control replay.new.board.chair.me.0 (progress_all replay.new.threads.items) replay.new.made.items) }
    ensures world { OnOk result (world_of replay.new.board.chair.me.0 replay.new.control.journal (progress_all replay.new.threads.items) replay.new.made.items ≡ asks_first plan.now.before (world_of replay.old.board.chair.me.0 replay.old.control.journal (progress_all replay.old.threads.items) replay.old.made.items)) }
    ensures few { OnOk result (length replay.new.control.journal + calls_left plan.now.scripts replay.new.made.items ≤ 256) }
{
    for call in plan.before.as_slice() {
        ask(program, plan, replay, Who::Before, call)?;
    }
    Ok(())
}

// Makes the moves of the schedule.
fn follow_schedule(
    program: &Program,
    plan: &Workload,
    schedule: &Items<Move>,
    replay: &mut Replay,
) -> Result<(), RunFault>
    requires proper { ProperPlan program.now plan.now }
    requires plan { FitsWorkload program.now plan.now }
    requires fits { All (FitsMove plan.now) schedule.now }
    requires holds { Holds program.now plan.now replay.old.control replay.old.board.chair.me.0 (progress_all replay.old.threads.items) replay.old.made.items }
    requires few { length replay.old.control.journal + calls_left plan.now.scripts replay.old.made.items ≤ 256 }
    ensures holds { OnOk result (Holds program.now plan.now replay.new.control replay.new.board.chair.me.0 (progress_all replay.new.threads.items) replay.new.made.items) }
    ensures world { OnOk result (world_of replay.new.board.chair.me.0 replay.new.control.journal (progress_all replay.new.threads.items) replay.new.made.items ≡ moves_all program.now plan.now schedule.now (world_of replay.old.board.chair.me.0 replay.old.control.journal (progress_all replay.old.threads.items) replay.old.made.items)) }
    ensures few { OnOk result (length replay.new.control.journal + calls_left plan.now.scripts replay.new.made.items ≤ 256) }
{
    for one in schedule.as_slice() {
        make_move(program, plan, replay, one)?;
    }
    Ok(())
}

// Makes so many calls of a script, as far as it has them.
fn finish_script(
    program: &Program,
    plan: &Workload,
    replay: &mut Replay,
    number: u8,
    calls: usize,
) -> Result<(), RunFault>
    requires plan { FitsWorkload program.now plan.now }
    requires low { number < length plan.now.scripts }
    requires holds { Holds program.now plan.now replay.old.control replay.old.board.chair.me.0 (progress_all replay.old.threads.items) replay.old.made.items }
    requires few { length replay.old.control.journal + calls_left plan.now.scripts replay.old.made.items ≤ 256 }
    ensures holds { OnOk result (Holds program.now plan.now replay.new.control replay.new.board.chair.me.0 (progress_all replay.new.threads.items) replay.new.made.items) }
    ensures world { OnOk result (world_of replay.new.board.chair.me.0 replay.new.control.journal (progress_all replay.new.threads.items) replay.new.made.items ≡ moves_all program.now plan.now (replicate calls (Call number)) (world_of replay.old.board.chair.me.0 replay.old.control.journal (progress_all replay.old.threads.items) replay.old.made.items)) }
    ensures few { OnOk result (length replay.new.control.journal + calls_left plan.now.scripts replay.new.made.items ≤ 256) }
{
    for _call in 0..calls {
        ask_next(program, plan, replay, number)?;
    }
    Ok(())
}

// Makes the remaining calls of the scripts.
fn finish_scripts(program: &Program, plan: &Workload, replay: &mut Replay) -> Result<(), RunFault>
    requires plan { FitsWorkload program.now plan.now }
    requires holds { Holds program.now plan.now replay.old.control replay.old.board.chair.me.0 (progress_all replay.old.threads.items) replay.old.made.items }
    requires few { length replay.old.control.journal + calls_left plan.now.scripts replay.old.made.items ≤ 256 }
    ensures holds { OnOk result (Holds program.now plan.now replay.new.control replay.new.board.chair.me.0 (progress_all replay.new.threads.items) replay.new.made.items) }
    ensures world { OnOk result (world_of replay.new.board.chair.me.0 replay.new.control.journal (progress_all replay.new.threads.items) replay.new.made.items ≡ moves_all program.now plan.now (rest_of_scripts 0 plan.now.scripts) (world_of replay.old.board.chair.me.0 replay.old.control.journal (progress_all replay.old.threads.items) replay.old.made.items)) }
{
    for number in 0..plan.scripts.len() {
        let Some(script) = plan.scripts.get(number) else {
            unreachable!()
        };
        finish_script(program, plan, replay, number as u8, script.len())?;
    }
    Ok(())
}

// Lets each thread come to its end or to the plan's bound.
fn finish_threads(program: &Program, plan: &Workload, replay: &mut Replay) -> Result<(), RunFault>
    requires proper { ProperPlan program.now plan.now }
    requires plan { FitsWorkload program.now plan.now }
    requires holds { Holds program.now plan.now replay.old.control replay.old.board.chair.me.0 (progress_all replay.old.threads.items) replay.old.made.items }
    ensures holds { OnOk result (Holds program.now plan.now replay.new.control replay.new.board.chair.me.0 (progress_all replay.new.threads.items) replay.new.made.items) }
    ensures world { OnOk result (world_of replay.new.board.chair.me.0 replay.new.control.journal (progress_all replay.new.threads.items) replay.new.made.items ≡ moves_all program.now plan.now (rest_of_threads plan.now.steps 0 plan.now.threads) (world_of replay.old.board.chair.me.0 replay.old.control.journal (progress_all replay.old.threads.items) replay.old.made.items)) }
    ensures done { OnOk result ((t : ℕ) (q : Progress) → slice_get (progress_all replay.new.threads.items) t ≡ Some q → IsDone plan.now.steps q) }
{
    for number in 0..plan.threads.len() {
        take_turn(program, plan, replay, number as u8, plan.steps)?;
    }
    Ok(())
}

// The board, the registry and the threads, of which nothing was done.
fn begin(
    alloc: Global,
    program: &Program,
    bases: &[u8],
    plan: &Workload,
) -> Result<Replay, RunFault>
    requires plan { FitsWorkload program.now plan.now }
    requires bases { bases.now ≡ program.now.bases }
    ensures proper { IfOk result (λ _. ProperPlan program.now plan.now) }
    ensures holds { IfOk result (λ r. Holds program.now plan.now r.control r.board.chair.me.0 (progress_all r.threads.items) r.made.items) }
    ensures few { IfOk result (λ r. length r.control.journal + length plan.now.before + calls_left plan.now.scripts r.made.items ≤ 256) }
    ensures journal { IfOk result (λ r. r.control.journal ≡ []) }
    ensures seen { IfOk result (λ r. r.board.chair.me.0.seen ≡ []) }
    ensures threads { IfOk result (λ r. progress_all r.threads.items ≡ map (λ s. nothing_done (begins program.now s)) plan.now.threads) }
    ensures made { IfOk result (λ r. r.made.items ≡ replicate (length plan.now.scripts) 0) }
{
    let _ = program.locations();
    let count = plan.threads.len() as u8;
    let words = first_words(alloc, bases)?;
    let board = PlainBoard::new(alloc, count, words.as_slice())?;
    let control = Control::new(alloc, program, count)?;
    let threads = begin_all(alloc, program, plan)?;
    let made = none_made(alloc, plan)?;
    Ok(Replay {
        board,
        control,
        threads,
        made,
    })
}

/// Runs a plan on one thread, by its schedule: the calls before all threads, the schedule's moves, the calls that are left
/// of each script in turn, and each thread to its end or to the plan's bound. `bases` are the base opcodes of the program's
/// locations.
///
/// The report is the serial one, and legal. The only fault is want of memory.
pub fn serial(
    alloc: Global,
    program: &Program,
    bases: &[u8],
    plan: &Plan,
) -> Result<Report, RunFault>
    requires fits { FitsProgram program.now plan.now }
    requires bases { bases.now ≡ program.now.bases }
    ensures report { IfOk result (IsSerial program.now plan.now) }
    ensures legal { IfOk result (IsLegal program.now plan.now.workload) }
{
    let load = &plan.workload;
    let mut replay = begin(alloc, program, bases, load)?;
    ask_first(program, load, &mut replay)?;
    follow_schedule(program, load, &plan.schedule, &mut replay)?;
    finish_scripts(program, load, &mut replay)?;
    finish_threads(program, load, &mut replay)?;
    let Replay {
        control,
        threads,
        ..
    } = replay;
    let threads = finish_all(alloc, threads)?;
    Ok(Report {
        journal: control.into_journal(),
        threads,
    })
}
