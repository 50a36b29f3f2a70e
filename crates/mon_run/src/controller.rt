//! A control call of a run over threads, for which the world is stopped where that has to be.
ghost use Rattle.std.specs.Prelude.{◌≡◌, ◌<◌, true, length, OnOk, OnErr};
ghost use Rattle.mon_words.specs.History.{after};
ghost use Rattle.mon_board.specs.Views.{halt_of};
ghost use Rattle.mon_code.specs.Sites.{sites_of};
ghost use Rattle.mon_gate.specs.Seats.{Belongs};
ghost use Rattle.mon_history.specs.Registry.{stops};
ghost use Rattle.mon_history.specs.Journal.{IsLawful, replay};
ghost use Rattle.mon_history.specs.Stands.{StandsFor};
ghost use Rattle.mon_control.specs.View.{Commits, NamesCode};
ghost use Rattle.mon_run.specs.Controlling.{Governs, Made, SameShares, SameSizes};

use crate::fault::RunFault;
use mon_board::HaltedTable;
use mon_code::Program;
use mon_control::{Control, Prepared, Ready};
use mon_gate::{Gate, Idle, Stopped};
use mon_history::{ControlCall, Who};
use std::sync::Wait;

// Makes a call in a stopped world.
fn commit_stopped(
    gate: &Gate,
    program: &Program,
    control: &mut Control,
    ready: Ready,
    stopped: &mut Stopped,
)
    requires gate { Belongs stopped.old.chair gate.now }
    requires count { stopped.old.chair.me.0.threads ≡ control.old.threads }
    requires stops { stops (replay control.old.journal) ready.call ≡ true }
    requires room { 0 < control.old.room }
    requires few { length control.old.journal < 256 }
    requires counts { length ready.counts ≡ control.old.threads }
    requires code { NamesCode control.old.codes ready.call }
    requires codes { length program.now.codes ≡ control.old.codes }
    requires stands { StandsFor (sites_of program.now) control.old.journal stopped.old.chair.me.0.first stopped.old.chair.me.0.seen }
    requires board { (halt_of stopped.old.chair.me.0).board ≡ after stopped.old.chair.me.0.first stopped.old.chair.me.0.seen }
    ensures gate { stopped.new.chair.table_id ≡ stopped.old.chair.table_id }
    ensures mine { stopped.new.chair.me.0.mine ≡ stopped.old.chair.me.0.mine }
    ensures tickets { stopped.new.chair.me.0.tickets ≡ stopped.old.chair.me.0.tickets }
    ensures ended { stopped.new.chair.me.0.ended ≡ stopped.old.chair.me.0.ended }
    ensures sizes { SameSizes control.old control.new }
    ensures lawful { IsLawful control.new.threads control.new.journal }
    ensures commits { Commits program.now control.old.threads control.old.journal ready.who ready.call (halt_of stopped.old.chair.me.0) (halt_of stopped.new.chair.me.0) control.new.journal }
{
    let mut halted = HaltedTable::new(stopped, gate);
    control.commit(ready, program, &mut halted);
}

// Stops the world for a call.
fn stop_for<R: Wait>(
    rt: &R,
    gate: &Gate,
    program: &Program,
    control: &mut Control,
    idle: Idle,
    ready: Ready,
) -> Idle
    requires gate { Belongs idle.chair gate.now }
    requires governs { Governs program.now control.old idle.chair.me.0 }
    requires stops { stops (replay control.old.journal) ready.call ≡ true }
    requires room { 0 < control.old.room }
    requires few { length control.old.journal < 256 }
    requires counts { length ready.counts ≡ control.old.threads }
    requires code { NamesCode control.old.codes ready.call }
    ensures gate { Belongs result.chair gate.now }
    ensures shares { SameShares idle.chair.me.0 result.chair.me.0 }
    ensures sizes { SameSizes control.old control.new }
    ensures governs { Governs program.now control.new result.chair.me.0 }
    ensures made { Made control.old.journal ready.who ready.call idle.chair.me.0 control.new.journal }
{
    let mut stopped = idle.ask(gate).stop(rt, gate);
    commit_stopped(gate, program, control, ready, &mut stopped);
    stopped.release(gate)
}

/// Makes a control call. Where it finds no memory the world runs on, and the journal is as before.
pub fn make_call<R: Wait>(
    rt: &R,
    gate: &Gate,
    program: &Program,
    control: &mut Control,
    idle: Idle,
    who: Who,
    call: &ControlCall,
) -> (Result<(), RunFault>, Idle)
    requires gate { Belongs idle.chair gate.now }
    requires governs { Governs program.now control.old idle.chair.me.0 }
    requires few { length control.old.journal < 256 }
    requires code { NamesCode control.old.codes call.now }
    ensures gate { Belongs result.1.chair gate.now }
    ensures shares { SameShares idle.chair.me.0 result.1.chair.me.0 }
    ensures sizes { SameSizes control.old control.new }
    ensures governs { Governs program.now control.new result.1.chair.me.0 }
    ensures made { OnOk result.0 (Made control.old.journal who call.now idle.chair.me.0 control.new.journal) }
    ensures same { OnErr result.0 (control.new.journal ≡ control.old.journal) }
{
    match control.prepare(who, call) {
        Err(fault) => (Err(fault.into()), idle),
        Ok(Prepared::Answered(_)) => (Ok(()), idle),
        Ok(Prepared::Stop(ready)) => (Ok(()), stop_for(rt, gate, program, control, idle, ready)),
    }
}
