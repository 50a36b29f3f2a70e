ghost use Rattle.std.specs.Prelude.{◌≡◌, ◌≢◌, ◌<◌, ◌≤◌, ℕ, false, IfOk, IfSome, IsTrue, is_some, length, slice_index};
ghost use Rattle.mon_gate.specs.Seats.{Belongs, IsNoted as noted_in};
ghost use Rattle.mon_gate.specs.declared.view.Phase.TheVariants.{Idle as IdleNow};
ghost use Rattle.mon_board.specs.PlainViews.{IsRunning};

use crate::{BoardFault, HaltedTable, PlainBoard, TableHandle};
use mon_gate::{Gate, GateFault, Pass, Stopped, claim, idle, split};
use mon_words::{Halted, Handle, WorldStopped};
use std::alloc::Global;

// A location whose base opcode is 1, all of whose bits are live and none is wanted, with the LINE opcode in place.
const FIRST: u64 = 0xffff_ff00_0000_0180;

// The same with the base opcode in place.
const RETIRED: u64 = 0xffff_ff00_0000_0101;

// The same where LINE is wanted for tool 0.
const WANTED: u64 = 0xffff_ff00_0001_0180;

// All bits but the live bit of the LINE slot and tool 0.
const NO_LINE: u64 = 0xffff_feff_ffff_ffff;

const STOP: u64 = 1 << 63;

// What `calls` gives on a board on which nothing was done.
const CALLED: (u64, u64, bool, bool, u64, u64) = (40, 46, true, false, RETIRED, RETIRED & NO_LINE);

// A gate with one location.
fn small_gate(alloc: Global, threads: u8) -> Result<(Gate, Pass), GateFault>
    ensures gate { IfOk result (λ made. Belongs made.1.chair made.0) }
    ensures phase { IfOk result (λ made. (made.1.chair.me.0.phase ≡ IdleNow) × (made.1.chair.me.0.tickets ≡ threads) × (made.1.chair.me.0.threads ≡ threads)) }
    ensures wide { IfOk result (λ made. length made.1.chair.me.0.first.cells ≡ 1) }
{
    Gate::new(
        alloc,
        threads,
        &[40, 41, 42, 43, 44, 45, 46, 0xffff_ff00_0000_0180],
    )
}

// A board with the same words.
fn small_board(alloc: Global, threads: u8) -> Result<PlainBoard, BoardFault>
    ensures threads { IfOk result (λ b. b.threads ≡ threads) }
    ensures running { IfOk result (λ b. IsRunning b.chair.me.0) }
    ensures wide { IfOk result (λ b. length b.chair.me.0.first.cells ≡ 1) }
    ensures counts { IfOk result (λ b. (t : ℕ) → slice_index b.chair.me.0.counts t ≡ 0) }
{
    PlainBoard::new(
        alloc,
        threads,
        &[40, 41, 42, 43, 44, 45, 46, 0xffff_ff00_0000_0180],
    )
}

// What a thread loads of the location, the global word and the callback word of tool 2 while it is attached.
fn turn<H: Handle>(handle: &mut H, steps: u64) -> Option<(u64, u64, u64)>
    requires detached { (H.told handle.old).attached ≡ false }
    requires wide { length (H.told handle.old).first.cells ≡ 1 }
    requires more { (H.told handle.old).count ≤ steps }
    ensures rest { H.rest handle.new ≡ H.rest handle.old }
    ensures number { (H.told handle.new).number ≡ (H.told handle.old).number }
    ensures first { (H.told handle.new).first ≡ (H.told handle.old).first }
    ensures detached { (H.told handle.new).attached ≡ false }
    ensures count { IfSome result (λ _. (H.told handle.new).count ≡ steps) }
{
    let Ok(()) = handle.try_enter() else {
        return None;
    };
    let found = (handle.load(0), handle.global(), handle.callbacks(2));
    handle.leave(steps);
    Some(found)
}

// What an attached thread loads, retires and disables.
fn calls<H: Handle>(handle: &mut H) -> (u64, u64, bool, bool, u64, u64)
    requires attached { IsTrue (H.told handle.old).attached }
    requires wide { length (H.told handle.old).first.cells ≡ 1 }
    ensures rest { H.rest handle.new ≡ H.rest handle.old }
    ensures attached { IsTrue (H.told handle.new).attached }
    ensures count { (H.told handle.new).count ≡ (H.told handle.old).count }
{
    let global = handle.global();
    let callbacks = handle.callbacks(5);
    let retired = handle.retire(0, FIRST);
    let again = handle.retire(0, FIRST);
    let found = handle.disable(0, NO_LINE);
    (global, callbacks, retired, again, found, handle.load(0))
}

// Changes the words that a turn loads, the location's where it has its first word, and gives the counts of two threads.
fn patch<H: Halted>(halted: &mut H) -> (u64, u64)
    requires wide { length (H.halt halted.old).board.cells ≡ 1 }
    requires threads { (H.halt halted.old).threads ≡ 2 }
    ensures rest { H.rest halted.new ≡ H.rest halted.old }
    ensures threads { (H.halt halted.new).threads ≡ 2 }
    ensures first { (H.halt halted.new).first ≡ (H.halt halted.old).first }
    ensures noted { (thread : ℕ) → thread < 2 → IsTrue (is_some ((H.halt halted.new).noted thread)) }
{
    halted.set_global(7);
    halted.set_callbacks(2, 9);
    let counts = (halted.steps(0), halted.steps(1));
    if halted.read(0) == FIRST {
        halted.rewrite(0, WANTED);
    }
    counts
}

#[test]
fn a_handle_of_a_gate_does_what_its_seat_does(rt: HostRuntime) {
    let Ok((gate, mut first)) = small_gate(rt.alloc(), 1) else {
        panic!(rt; "no memory")
    };
    let pass = split(&mut first, &gate);
    let mut handle = TableHandle::new(claim(pass, &gate), &gate);
    let Ok(()) = handle.try_enter() else {
        panic!(rt; "the world was stopped")
    };
    assert!(rt; calls(&mut handle) == CALLED);
    assert!(rt; !handle.poll());
    let asked = idle(first).ask(&gate);
    assert!(rt; handle.poll());
    handle.leave(5);
    let Err(WorldStopped(found)) = handle.try_enter() else {
        panic!(rt; "a stopped world was entered")
    };
    assert_eq!(rt; found, STOP);
    assert_eq!(rt; handle.into_seat().number(), 0);
    let mut stopped = match asked.observe(&gate) {
        Ok(stopped) => stopped,
        Err(_) => panic!(rt; "nobody was attached"),
    };
    assert_eq!(rt; stopped.steps(&gate, 0), 5);
    stopped.release(&gate).end();
}

// Patches the words of a stopped gate.
fn patch_gate(stopped: &mut Stopped, gate: &Gate) -> (u64, u64)
    requires gate { Belongs stopped.old.chair gate.now }
    requires wide { length stopped.old.chair.me.0.first.cells ≡ 1 }
    requires threads { stopped.old.chair.me.0.threads ≡ 2 }
    ensures gate { Belongs stopped.new.chair gate.now }
    ensures threads { stopped.new.chair.me.0.threads ≡ 2 }
    ensures noted { (thread : ℕ) → thread < 2 → noted_in stopped.new.chair.me.0 thread }
{
    let mut halted = HaltedTable::new(stopped, gate);
    patch(&mut halted)
}

#[test]
fn threads_of_a_gate_load_what_was_rewritten(rt: HostRuntime) {
    let Ok((gate, mut first)) = small_gate(rt.alloc(), 2) else {
        panic!(rt; "no memory")
    };
    let one = split(&mut first, &gate);
    let two = split(&mut first, &gate);
    let mut one = TableHandle::new(claim(one, &gate), &gate);
    let mut two = TableHandle::new(claim(two, &gate), &gate);
    assert!(rt; turn(&mut one, 5) == Some((FIRST, 40, 43)));
    assert!(rt; turn(&mut two, 3) == Some((FIRST, 40, 43)));
    let mut stopped = match idle(first).ask(&gate).observe(&gate) {
        Ok(stopped) => stopped,
        Err(_) => panic!(rt; "nobody was attached"),
    };
    assert_eq!(rt; patch_gate(&mut stopped, &gate), (5, 3));
    stopped.release(&gate).end();
    assert!(rt; turn(&mut one, 6) == Some((WANTED, 7, 9)));
    assert!(rt; turn(&mut two, 3) == Some((WANTED, 7, 9)));
    one.into_seat().end();
    two.into_seat().end();
}

// A turn of a thread of a plain board.
fn plain_turn(board: &mut PlainBoard, thread: u8, steps: u64) -> Option<(u64, u64, u64)>
    requires running { IsRunning board.old.chair.me.0 }
    requires threads { board.old.threads ≡ 2 }
    requires thread { thread < 2 }
    requires wide { length board.old.chair.me.0.first.cells ≡ 1 }
    requires more { slice_index board.old.chair.me.0.counts thread ≤ steps }
    ensures running { IsRunning board.new.chair.me.0 }
    ensures threads { board.new.threads ≡ 2 }
    ensures wide { length board.new.chair.me.0.first.cells ≡ 1 }
    ensures own { IfSome result (λ _. slice_index board.new.chair.me.0.counts thread ≡ steps) }
    ensures others { (t : ℕ) → t ≢ thread → slice_index board.new.chair.me.0.counts t ≡ slice_index board.old.chair.me.0.counts t }
{
    let mut handle = board.handle(thread);
    turn(&mut handle, steps)
}

// Patches the words of a plain board.
fn patch_board(board: &mut PlainBoard) -> (u64, u64)
    requires running { IsRunning board.old.chair.me.0 }
    requires threads { board.old.threads ≡ 2 }
    requires wide { length board.old.chair.me.0.first.cells ≡ 1 }
    ensures running { IsRunning board.new.chair.me.0 }
    ensures threads { board.new.threads ≡ 2 }
    ensures wide { length board.new.chair.me.0.first.cells ≡ 1 }
    ensures counts { board.new.chair.me.0.counts ≡ board.old.chair.me.0.counts }
{
    let mut halted = board.halted();
    let counts = patch(&mut halted);
    halted.release();
    counts
}

#[test]
fn a_plain_board_is_halted_after_turns_of_two_threads(rt: HostRuntime) {
    let Ok(mut board) = small_board(rt.alloc(), 2) else {
        panic!(rt; "no memory")
    };
    assert!(rt; plain_turn(&mut board, 0, 5) == Some((FIRST, 40, 43)));
    assert!(rt; plain_turn(&mut board, 1, 3) == Some((FIRST, 40, 43)));
    assert_eq!(rt; patch_board(&mut board), (5, 3));
    assert!(rt; plain_turn(&mut board, 0, 6) == Some((WANTED, 7, 9)));
    assert!(rt; plain_turn(&mut board, 1, 3) == Some((WANTED, 7, 9)));
}

#[test]
fn a_handle_of_a_plain_board_is_never_refused(rt: HostRuntime) {
    let Ok(mut board) = small_board(rt.alloc(), 2) else {
        panic!(rt; "no memory")
    };
    let mut handle = board.handle(1);
    let Ok(()) = handle.try_enter() else {
        panic!(rt; "a plain board refused")
    };
    assert!(rt; calls(&mut handle) == CALLED);
    assert!(rt; !handle.poll());
    handle.leave(5);
}
