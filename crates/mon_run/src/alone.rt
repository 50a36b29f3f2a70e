//! A control call and some steps of a thread, over the board of one thread.
ghost use Rattle.std.specs.Prelude.{◌≡◌, ◌+◌, ◌<◌, ◌≤◌, map, true, length, slice_index, OnOk};
ghost use Rattle.mon_words.specs.History.{base_in};
ghost use Rattle.mon_board.specs.PlainViews.{IsRunning};
ghost use Rattle.mon_code.specs.Sites.{sites_of};
ghost use Rattle.mon_history.specs.Registry.{stops};
ghost use Rattle.mon_history.specs.Journal.{replay};
ghost use Rattle.mon_history.specs.Stands.{StandsFor};
ghost use Rattle.mon_control.specs.View.{NamesCode};
ghost use Rattle.mon_run.specs.Replaying.{Called, Took};

use crate::fault::RunFault;
use mon_board::PlainBoard;
use mon_code::Program;
use mon_control::{Control, Prepared, Ready};
use mon_history::{ControlCall, Who};
use mon_interp::Thread;
use mon_words::Handle;

// Makes a call on the halted board.
fn commit_alone(program: &Program, board: &mut PlainBoard, control: &mut Control, ready: Ready)
    requires running { IsRunning board.old.chair.me.0 }
    requires count { board.old.chair.me.0.threads ≡ control.old.threads }
    requires stops { stops (replay control.old.journal) ready.call ≡ true }
    requires room { 0 < control.old.room }
    requires few { length control.old.journal < 256 }
    requires counts { length ready.counts ≡ control.old.threads }
    requires code { NamesCode control.old.codes ready.call }
    requires codes { length program.now.codes ≡ control.old.codes }
    requires stands { StandsFor (sites_of program.now) control.old.journal board.old.chair.me.0.first board.old.chair.me.0.seen }
    ensures threads { control.new.threads ≡ control.old.threads }
    ensures codes { control.new.codes ≡ control.old.codes }
    ensures called { Called program.now ready.who ready.call board.old.chair.me.0 board.new.chair.me.0 control.old.journal control.new.journal }
{
    let mut halted = board.halted();
    control.commit(ready, program, &mut halted);
    halted.release();
}

/// Makes a control call, for which the board is halted where that has to be.
pub fn call_alone(
    program: &Program,
    board: &mut PlainBoard,
    control: &mut Control,
    who: Who,
    call: &ControlCall,
) -> Result<(), RunFault>
    requires running { IsRunning board.old.chair.me.0 }
    requires count { board.old.chair.me.0.threads ≡ control.old.threads }
    requires few { length control.old.journal < 256 }
    requires code { NamesCode control.old.codes call.now }
    requires codes { length program.now.codes ≡ control.old.codes }
    requires stands { StandsFor (sites_of program.now) control.old.journal board.old.chair.me.0.first board.old.chair.me.0.seen }
    ensures threads { control.new.threads ≡ control.old.threads }
    ensures codes { control.new.codes ≡ control.old.codes }
    ensures called { OnOk result (Called program.now who call.now board.old.chair.me.0 board.new.chair.me.0 control.old.journal control.new.journal) }
{
    match control.prepare(who, call) {
        Err(fault) => Err(fault.into()),
        Ok(Prepared::Answered(_)) => Ok(()),
        Ok(Prepared::Stop(ready)) => {
            commit_alone(program, board, control, ready);
            Ok(())
        }
    }
}

/// Lets a thread do so many steps, or fewer where it ends.
pub fn steps_alone(
    program: &Program,
    board: &mut PlainBoard,
    thread: &mut Thread,
    number: u8,
    steps: u64,
) -> Result<(), RunFault>
    requires running { IsRunning board.old.chair.me.0 }
    requires within { number < board.old.chair.me.0.threads }
    requires bases { map base_in board.old.chair.me.0.first.cells ≡ program.now.bases }
    requires bound { thread.old.progress.steps + steps ≤ 200000 }
    requires count { slice_index board.old.chair.me.0.counts number ≡ thread.old.progress.steps }
    ensures took { OnOk result (Took program.now number steps board.old.chair.me.0 board.new.chair.me.0 thread.old.progress thread.new.progress) }
{
    let mut handle = board.handle(number);
    let Ok(()) = handle.try_enter() else {
        unreachable!()
    };
    thread.advance(program, &mut handle, steps)?;
    handle.leave(thread.steps());
    Ok(())
}
