//! The calls before all threads, and those of the scripts in turn.
ghost use Rattle.std.specs.Prelude.{◌≡◌, ◌+◌, ◌-◌, ◌≤◌, [], All, length, slice_get, OnOk};
ghost use Rattle.mon_gate.specs.Seats.{Belongs};
ghost use Rattle.mon_forms.specs.Fits.{FitsCall};
ghost use Rattle.mon_run.specs.Turns.{AllZero, asked, first_calls};
ghost use Rattle.mon_run.specs.Scripts.{call_of, longest, rounds, round_from};
ghost use Rattle.mon_run.specs.Controlling.{Governs, Grown, SameShares, SameSizes, calls_due};

use crate::beat::Beat;
use crate::controller::make_call;
use crate::fault::RunFault;
use crate::lent::Lent;
use mon_control::Control;
use mon_forms::Workload;
use mon_gate::Idle;
use mon_history::{ControlCall, Who};
use sqlite_items::Items;
use std::sync::Wait;

/// Makes the calls before all threads, while the first pass has every ticket.
pub fn make_before<R: Wait, B: Beat>(
    lent: &Lent<'_, R, B>,
    control: &mut Control,
    idle: Idle,
) -> (Result<(), RunFault>, Idle)
    requires gate { Belongs idle.chair lent.now.gate.now }
    requires governs { Governs lent.now.program.now control.old idle.chair.me.0 }
    requires fits { All (FitsCall lent.now.program.now) lent.now.plan.now.before }
    requires few { length lent.now.plan.now.before ≤ 256 }
    requires tickets { idle.chair.me.0.tickets ≡ idle.chair.me.0.threads }
    requires none { control.old.journal ≡ [] }
    ensures gate { Belongs result.1.chair lent.now.gate.now }
    ensures shares { SameShares idle.chair.me.0 result.1.chair.me.0 }
    ensures sizes { SameSizes control.old control.new }
    ensures governs { Governs lent.now.program.now control.new result.1.chair.me.0 }
    ensures asked { OnOk result.0 (asked control.new.journal ≡ first_calls lent.now.plan.now.before) }
    ensures zero { AllZero control.new.journal }
{
    let mut idle = idle;
    for call in lent.plan.before.as_slice() {
        let (answer, next) = make_call(
            lent.rt,
            lent.gate,
            lent.program,
            control,
            idle,
            Who::Before,
            call,
        );
        idle = next;
        if let Err(fault) = answer {
            return (Err(fault), idle);
        }
    }
    (Ok(()), idle)
}

// Makes a script's call of this number, if it has so many.
fn make_one<R: Wait, B: Beat>(
    lent: &Lent<'_, R, B>,
    control: &mut Control,
    idle: Idle,
    number: u8,
    script: &Items<ControlCall>,
    round: usize,
) -> (Result<(), RunFault>, Idle)
    requires gate { Belongs idle.chair lent.now.gate.now }
    requires governs { Governs lent.now.program.now control.old idle.chair.me.0 }
    requires fits { All (FitsCall lent.now.program.now) script.now }
    requires few { length control.old.journal + (length script.now - round) ≤ 256 }
    ensures gate { Belongs result.1.chair lent.now.gate.now }
    ensures shares { SameShares idle.chair.me.0 result.1.chair.me.0 }
    ensures sizes { SameSizes control.old control.new }
    ensures governs { Governs lent.now.program.now control.new result.1.chair.me.0 }
    ensures made { OnOk result.0 (Grown control.old.journal control.new.journal (call_of number (slice_get script.now round))) }
    ensures few { OnOk result.0 (length control.new.journal + (length script.now - (round + 1)) ≡ length control.old.journal + (length script.now - round)) }
{
    let Some(call) = script.get(round) else {
        return (Ok(()), idle);
    };
    let who = Who::Script(number);
    let answer = make_call(lent.rt, lent.gate, lent.program, control, idle, who, call);
    lent.beat.called(number);
    answer
}

// Makes one call of each script that has so many.
fn make_round<R: Wait, B: Beat>(
    lent: &Lent<'_, R, B>,
    control: &mut Control,
    idle: Idle,
    round: usize,
) -> (Result<(), RunFault>, Idle)
    requires gate { Belongs idle.chair lent.now.gate.now }
    requires governs { Governs lent.now.program.now control.old idle.chair.me.0 }
    requires scripts { length lent.now.plan.now.scripts ≤ 4 }
    requires fits { All (All (FitsCall lent.now.program.now)) lent.now.plan.now.scripts }
    requires few { length control.old.journal + calls_due round 0 lent.now.plan.now.scripts ≤ 256 }
    ensures gate { Belongs result.1.chair lent.now.gate.now }
    ensures shares { SameShares idle.chair.me.0 result.1.chair.me.0 }
    ensures sizes { SameSizes control.old control.new }
    ensures governs { Governs lent.now.program.now control.new result.1.chair.me.0 }
    ensures made { OnOk result.0 (Grown control.old.journal control.new.journal (round_from round 0 lent.now.plan.now.scripts)) }
    ensures few { OnOk result.0 (length control.new.journal + calls_due (round + 1) 0 lent.now.plan.now.scripts ≤ 256) }
{
    let mut idle = idle;
    for s in 0..lent.plan.scripts.len() {
        let Some(script) = lent.plan.scripts.get(s) else {
            unreachable!()
        };
        let (answer, next) = make_one(lent, control, idle, s as u8, script, round);
        idle = next;
        if let Err(fault) = answer {
            return (Err(fault), idle);
        }
    }
    (Ok(()), idle)
}

// The number of calls of the longest script.
fn most_calls(plan: &Workload) -> usize
    ensures { result ≡ longest plan.now.scripts }
{
    let mut most = 0;
    for script in plan.scripts.as_slice() {
        most = script.len().max(most);
    }
    most
}

/// Makes the calls of the scripts in turn.
pub fn make_scripts<R: Wait, B: Beat>(
    lent: &Lent<'_, R, B>,
    control: &mut Control,
    idle: Idle,
) -> (Result<(), RunFault>, Idle)
    requires gate { Belongs idle.chair lent.now.gate.now }
    requires governs { Governs lent.now.program.now control.old idle.chair.me.0 }
    requires scripts { length lent.now.plan.now.scripts ≤ 4 }
    requires fits { All (All (FitsCall lent.now.program.now)) lent.now.plan.now.scripts }
    requires few { length control.old.journal + calls_due 0 0 lent.now.plan.now.scripts ≤ 256 }
    ensures gate { Belongs result.1.chair lent.now.gate.now }
    ensures shares { SameShares idle.chair.me.0 result.1.chair.me.0 }
    ensures sizes { SameSizes control.old control.new }
    ensures governs { Governs lent.now.program.now control.new result.1.chair.me.0 }
    ensures made { OnOk result.0 (Grown control.old.journal control.new.journal (rounds lent.now.plan.now.scripts (longest lent.now.plan.now.scripts))) }
{
    let mut idle = idle;
    for round in 0..most_calls(lent.plan) {
        let (answer, next) = make_round(lent, control, idle, round);
        idle = next;
        if let Err(fault) = answer {
            return (Err(fault), idle);
        }
    }
    (Ok(()), idle)
}
