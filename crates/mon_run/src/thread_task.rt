//! A thread of a plan, from its pass to its report.
ghost use Rattle.std.specs.Prelude.{◌≡◌, ◌<◌, IfOk, Some};
ghost use Rattle.mon_gate.specs.Plays.{ended_of};
ghost use Rattle.mon_gate.specs.Seats.{Belongs};
ghost use Rattle.mon_gate.specs.declared.view.Phase.TheVariants.{Out};
ghost use Rattle.mon_machine.specs.Advances.{nothing_done};
ghost use Rattle.mon_forms.specs.Fits.{FitsStart, FitsWorkload};
ghost use Rattle.mon_run.specs.Reports.{begins};
ghost use Rattle.mon_run.specs.Rounds.{Worked};
ghost use Rattle.mon_run.specs.Controlling.{SameShares};
ghost use Rattle.mon_run.specs.Crowding.{Claimed, Job, Came};

use crate::beat::Beat;
use crate::fault::RunFault;
use crate::lent::Lent;
use crate::worker::rounds;
use mon_code::Program;
use mon_forms::Start;
use mon_gate::{Pass, Seat, claim};
use mon_interp::Thread;
use mon_recorders::ThreadReport;
use mon_values::value::Value;
use std::alloc::{AllocError, Global};
use std::sync::Wait;

/// What a thread leaves: the number that it drew, its report, if it found memory, and its pass.
#[derive(Drop)]
pub struct Finished {
    pub number: u8,
    pub report: Option<ThreadReport>,
    pub pass: Pass,
}

// Copies of these values, which share nothing with them.
fn own_values(alloc: Global, values: &[Value]) -> Result<Vec<Value>, AllocError>
    ensures { IfOk result (λ copies. copies.items ≡ values.now) }
{
    let mut copies = Vec::new(alloc);
    for value in values {
        copies.push(value.own(alloc)?)?;
    }
    Ok(copies)
}

// A thread that shares nothing with its start.
fn begin_own(alloc: Global, program: &Program, start: &Start) -> Result<Thread, AllocError>
    requires fits { FitsStart program.now start.now }
    ensures { IfOk result (λ t. t.progress ≡ nothing_done (begins program.now start.now)) }
{
    let Some(code) = program.code(start.code) else {
        unreachable!()
    };
    let args = own_values(alloc, start.args.as_slice())?;
    Thread::begin(alloc, code, start.code, args.as_slice())
}

// Runs the plan's thread of the seat's number over a program of its own.
fn run_thread<R: Wait, B: Beat>(
    lent: &Lent<'_, R, B>,
    seat: Seat,
) -> (Result<ThreadReport, RunFault>, Seat)
    requires gate { Belongs seat.chair lent.now.gate.now }
    requires claimed { Claimed lent.now.program.now lent.now.plan.now seat.chair.me.0 }
    requires fits { FitsWorkload lent.now.program.now lent.now.plan.now }
    ensures gate { Belongs result.1.chair lent.now.gate.now }
    ensures out { result.1.chair.me.0.phase ≡ Out }
    ensures number { result.1.chair.me.0.number ≡ seat.chair.me.0.number }
    ensures shares { SameShares seat.chair.me.0 result.1.chair.me.0 }
    ensures worked { IfOk result.0 (Worked lent.now.program.now lent.now.plan.now seat.chair.me.0.first (ended_of result.1.chair.me.0)) }
{
    let Some(start) = lent.plan.threads.get(seat.number() as usize) else {
        unreachable!()
    };
    let Ok(program) = lent.program.own(lent.alloc) else {
        return (Err(RunFault::Memory), seat);
    };
    let Ok(mut thread) = begin_own(lent.alloc, &program, start) else {
        return (Err(RunFault::Memory), seat);
    };
    let bound = lent.plan.steps;
    let (answer, seat) = rounds(
        lent.rt,
        lent.gate,
        &program,
        lent.beat,
        &mut thread,
        seat,
        bound,
    );
    match answer {
        Ok(()) => (Ok(thread.finish()), seat),
        Err(fault) => (Err(fault), seat),
    }
}

/// Draws a number, and runs the plan's thread of that number.
pub fn work<R: Wait, B: Beat>(lent: &Lent<'_, R, B>, pass: Pass) -> Finished
    requires gate { Belongs pass.chair lent.now.gate.now }
    requires job { Job lent.now.program.now lent.now.plan.now pass.chair.me.0.first pass.chair.me.0 }
    requires fits { FitsWorkload lent.now.program.now lent.now.plan.now }
    ensures gate { Belongs result.pass.chair lent.now.gate.now }
    ensures came { Came lent.now.program.now lent.now.plan.now pass.chair.me.0.first result.number result.pass.chair.me.0 result.report }
{
    let seat = claim(pass, lent.gate);
    let number = seat.number();
    let (report, seat) = run_thread(lent, seat);
    Finished {
        number,
        report: report.ok(),
        pass: seat.end(),
    }
}
