//! The rounds of an interpreter thread.
ghost use Rattle.std.specs.Prelude.{◌≡◌, ◌+◌, ◌<◌, ◌≤◌, map, OnOk};
ghost use Rattle.mon_words.specs.History.{base_in};
ghost use Rattle.mon_board.specs.Views.{told_of};
ghost use Rattle.mon_gate.specs.Seats.{Belongs};
ghost use Rattle.mon_gate.specs.declared.view.Phase.TheVariants.{Out};
ghost use Rattle.mon_forms.specs.declared.plan.Start.{Start};
ghost use Rattle.mon_run.specs.Replaying.{IsDone};
ghost use Rattle.mon_run.specs.Controlling.{SameShares};
ghost use Rattle.mon_run.specs.Rounds.{Left};

use crate::beat::Beat;
use crate::fault::RunFault;
use mon_board::TableHandle;
use mon_code::Program;
use mon_gate::{Gate, Seat, enter};
use mon_interp::Thread;
use mon_words::Handle;
use std::sync::Wait;

/// The most steps of a round.
const ROUND: u64 = 256;

// Enters, advances by at most so many steps, and leaves.
fn round<R: Wait>(
    rt: &R,
    gate: &Gate,
    program: &Program,
    thread: &mut Thread,
    seat: Seat,
    steps: u64,
) -> (Result<(), RunFault>, Seat)
    requires gate { Belongs seat.chair gate.now }
    requires out { seat.chair.me.0.phase ≡ Out }
    requires bases { map base_in seat.chair.me.0.first.cells ≡ program.now.bases }
    requires bound { thread.old.progress.steps + steps ≤ 200000 }
    requires count { seat.chair.me.0.stored ≤ thread.old.progress.steps }
    ensures gate { Belongs result.1.chair gate.now }
    ensures out { result.1.chair.me.0.phase ≡ Out }
    ensures number { result.1.chair.me.0.number ≡ seat.chair.me.0.number }
    ensures shares { SameShares seat.chair.me.0 result.1.chair.me.0 }
    ensures count { result.1.chair.me.0.stored ≤ thread.new.progress.steps }
    ensures within { thread.new.progress.steps ≤ thread.old.progress.steps + steps }
    ensures left { (s : Start) → Left program.now s (told_of seat.chair.me.0) thread.old.progress → OnOk result.0 (Left program.now s (told_of result.1.chair.me.0) thread.new.progress) }
{
    let mut seat = seat;
    enter(rt, &mut seat, gate);
    let mut handle = TableHandle::new(seat, gate);
    let answer = thread.advance(program, &mut handle, steps);
    handle.leave(thread.steps());
    let seat = handle.into_seat();
    match answer {
        Ok(_) => (Ok(()), seat),
        Err(fault) => (Err(fault.into()), seat),
    }
}

/// Makes rounds of at most 256 steps until the thread has ended, has done so many steps, or found no memory.
pub fn rounds<R: Wait, B: Beat>(
    rt: &R,
    gate: &Gate,
    program: &Program,
    beat: &B,
    thread: &mut Thread,
    seat: Seat,
    bound: u64,
) -> (Result<(), RunFault>, Seat)
    requires gate { Belongs seat.chair gate.now }
    requires out { seat.chair.me.0.phase ≡ Out }
    requires bases { map base_in seat.chair.me.0.first.cells ≡ program.now.bases }
    requires bound { bound ≤ 200000 }
    requires within { thread.old.progress.steps ≤ bound }
    requires count { seat.chair.me.0.stored ≤ thread.old.progress.steps }
    ensures gate { Belongs result.1.chair gate.now }
    ensures out { result.1.chair.me.0.phase ≡ Out }
    ensures number { result.1.chair.me.0.number ≡ seat.chair.me.0.number }
    ensures shares { SameShares seat.chair.me.0 result.1.chair.me.0 }
    ensures within { thread.new.progress.steps ≤ bound }
    ensures done { OnOk result.0 (IsDone bound thread.new.progress) }
    ensures left { (s : Start) → Left program.now s (told_of seat.chair.me.0) thread.old.progress → OnOk result.0 (Left program.now s (told_of result.1.chair.me.0) thread.new.progress) }
{
    let mut seat = seat;
    for _ in rt.forever() {
        let steps = thread.steps();
        if thread.ended() || steps == bound {
            return (Ok(()), seat);
        }
        beat.polled(seat.number());
        let (answer, next) = round(rt, gate, program, thread, seat, ROUND.min(bound - steps));
        seat = next;
        if let Err(fault) = answer {
            return (Err(fault), seat);
        }
    }
    unreachable!()
}
