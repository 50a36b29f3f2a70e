ghost use Rattle.std.specs.Prelude.{◌≡◌, ◌<◌, ◌+◌, IfOk, length};
ghost use Rattle.std.specs.Thread.{IsSync};
ghost use Rattle.mon_words.specs.Told.{OneBit};
ghost use Rattle.mon_gate.specs.Seats.{Belongs};
ghost use Rattle.mon_gate.specs.declared.view.Phase.TheVariants.{Plain, Out, Attached, Idle as IdleNow};

use crate::{Gate, GateFault, NotYet, Pass, Seat, claim, enter, idle, join, settle, split};
use mon_words::{WorldStopped, normal};
use std::alloc::Global;
use std::sync::Wait;
use std::thread::{Threads, join as run_both};

const ROUNDS: u64 = 200;

// All is live, LINE is wanted for tools 0 and 1, and the opcode of LINE stands in place of base 1.
const LOUD: u64 = 0xffff_ff00_0003_0180;

const MOST_TRIES: u32 = 4;

// A gate with one location, whose base opcode is 1.
fn small_gate(alloc: Global, threads: u8) -> Result<(Gate, Pass), GateFault>
    ensures gate { IfOk result (λ made. Belongs made.1.chair made.0) }
    ensures threads { IfOk result (λ made. made.0.threads ≡ threads) }
    ensures phase { IfOk result (λ made. (made.1.chair.me.0.phase ≡ IdleNow) × (made.1.chair.me.0.tickets ≡ threads) × (made.1.chair.me.0.threads ≡ threads)) }
    ensures wide { IfOk result (λ made. length made.1.chair.me.0.first.cells ≡ 1) }
{
    Gate::new(
        alloc,
        threads,
        &[0, 0, 0, 0, 0, 0, 0, 0xffff_ff00_0000_0101],
    )
}

#[test]
fn the_world_stops_once_nobody_is_attached(rt: HostRuntime) {
    let Ok((gate, mut first)) = small_gate(rt.alloc(), 2) else {
        panic!(rt; "no memory")
    };
    let one = split(&mut first, &gate);
    let two = split(&mut first, &gate);
    let mut one = claim(one, &gate);
    let mut two = claim(two, &gate);
    assert_eq!(rt; (one.number(), two.number()), (0, 1));
    let Ok(()) = one.try_enter(&gate) else {
        panic!(rt; "the world was stopped")
    };
    let asked = idle(first).ask(&gate);
    let asked = match asked.observe(&gate) {
        Ok(_) => panic!(rt; "the world stopped over an attached thread"),
        Err(NotYet { word, asked }) => {
            assert_eq!(rt; word, 9_223_372_036_854_775_809);
            asked
        }
    };
    let Err(WorldStopped(found)) = two.try_enter(&gate) else {
        panic!(rt; "a stopped world was entered")
    };
    assert_eq!(rt; found, 9_223_372_036_854_775_809);
    assert!(rt; one.poll(&gate));
    one.leave(&gate, 5);
    let mut stopped = match asked.observe(&gate) {
        Ok(stopped) => stopped,
        Err(_) => panic!(rt; "nobody was attached"),
    };
    assert_eq!(rt; stopped.steps(&gate, 0), 5);
    assert_eq!(rt; stopped.steps(&gate, 1), 0);
    assert_eq!(rt; stopped.read(&gate, 0), 0xffff_ff00_0000_0101);
    stopped.release(&gate).end();
    assert!(rt; two.try_enter(&gate).is_ok());
}

// Enters and leaves again and again.
fn work<R: Wait>(rt: &R, gate: &Gate, pass: Pass) -> Pass
    requires { Belongs pass.chair gate.now × (pass.chair.me.0.phase ≡ Plain) × (0 < pass.chair.me.0.tickets) }
    ensures { Belongs result.chair gate.now × (result.chair.me.0.phase ≡ Out) }
{
    let mut seat = claim(pass, gate);
    for round in 0..ROUNDS {
        enter(rt, &mut seat, gate);
        seat.leave(gate, round);
    }
    seat.end()
}

// Stops the world again and again.
fn control<R: Wait>(rt: &R, gate: &Gate, first: Pass) -> Pass
    requires { Belongs first.chair gate.now × (first.chair.me.0.phase ≡ IdleNow) × (first.chair.me.0.threads ≡ 1) }
    ensures { Belongs result.chair gate.now × (result.chair.me.0.phase ≡ IdleNow) × (result.chair.me.0.threads ≡ 1) }
{
    let mut controller = idle(first);
    for _ in 0..ROUNDS {
        let mut stopped = controller.ask(gate).stop(rt, gate);
        stopped.steps(gate, 0);
        controller = stopped.release(gate);
    }
    controller.end()
}

// A controller and a worker, side by side; then the last count of the worker.
fn both<R: Threads + Wait + Sync>(rt: &R, gate: &Gate, mut first: Pass) -> u64
    requires { Belongs first.chair gate.now × (first.chair.me.0.phase ≡ IdleNow) × (first.chair.me.0.tickets ≡ 1) × (first.chair.me.0.threads ≡ 1) }
{
    let pass = split(&mut first, gate);
    let (mut home, done) = run_both(
        rt,
        move || -> Pass
            requires { IsSync R.row × Belongs first.chair gate.now × (first.chair.me.0.phase ≡ IdleNow) × (first.chair.me.0.threads ≡ 1) }
            ensures { Belongs result.chair gate.entry.now × (result.chair.me.0.phase ≡ IdleNow) × (result.chair.me.0.threads ≡ 1) }
        { control(rt, gate, first) },
        move || -> Pass
            requires { IsSync R.row × Belongs pass.chair gate.now × (pass.chair.me.0.phase ≡ Plain) × (0 < pass.chair.me.0.tickets) }
            ensures { Belongs result.chair gate.entry.now × (result.chair.me.0.phase ≡ Out) }
        { work(rt, gate, pass) },
    );
    join(&mut home, done, gate);
    let mut stopped = idle(home).ask(gate).stop(rt, gate);
    let last = stopped.steps(gate, 0);
    stopped.release(gate).end();
    last
}

#[test]
fn a_thread_enters_beside_a_controller_that_stops(rt: HostRuntime) {
    let Ok((gate, first)) = small_gate(rt.alloc(), 1) else {
        panic!(rt; "no memory")
    };
    assert_eq!(rt; both(&rt, &gate, first), ROUNDS - 1);
}

// A gate of two threads whose locations want LINE for tools 0 and 1.
fn loud_gate(alloc: Global) -> Result<(Gate, Pass), GateFault>
    ensures gate { IfOk result (λ made. Belongs made.1.chair made.0) }
    ensures phase { IfOk result (λ made. (made.1.chair.me.0.phase ≡ IdleNow) × (made.1.chair.me.0.tickets ≡ 2) × (made.1.chair.me.0.threads ≡ 2)) }
    ensures wide { IfOk result (λ made. length made.1.chair.me.0.first.cells ≡ 4) }
{
    Gate::new(alloc, 2, &[0, 0, 0, 0, 0, 0, 0, LOUD, LOUD, LOUD, LOUD])
}

// The mask of LINE for tool 0 or for tool 1.
fn line_mask(second: bool) -> u64
    ensures { OneBit result }
{
    if second { !(1 << 41) } else { !(1 << 40) }
}

// Disables a bit of a location, and tries to retire its word until it has the opcode that is needed: gives the number of tries.
fn quieten(seat: &mut Seat, gate: &Gate, location: u32, mask: u64) -> u32
    requires gate { Belongs seat.old.chair gate.now }
    requires attached { seat.old.chair.me.0.phase ≡ Attached }
    requires within { location < length seat.old.chair.me.0.first.cells }
    requires mask { OneBit mask }
    ensures stays { Belongs seat.new.chair gate.now × (seat.new.chair.me.0.phase ≡ Attached) × (seat.new.chair.me.0.stored ≡ seat.old.chair.me.0.stored) × (seat.new.chair.me.0.first ≡ seat.old.chair.me.0.first) }
{
    seat.disable(gate, location, mask);
    for tries in 0..MOST_TRIES {
        let word = seat.load(gate, location);
        if word == normal(word) {
            return tries;
        }
        seat.retire(gate, location, word);
    }
    MOST_TRIES
}

// Quietens all locations for one of the two tools, and gives the greatest number of tries.
fn quieten_all<R: Wait>(rt: &R, gate: &Gate, pass: Pass, second: bool) -> (Pass, u32)
    requires { Belongs pass.chair gate.now × (pass.chair.me.0.phase ≡ Plain) × (0 < pass.chair.me.0.tickets) × (length pass.chair.me.0.first.cells ≡ 4) }
    ensures { Belongs result.0.chair gate.now × (result.0.chair.me.0.phase ≡ Out) }
{
    let mut seat = claim(pass, gate);
    enter(rt, &mut seat, gate);
    let mut most = 0;
    for location in 0..4 {
        most = most.max(quieten(&mut seat, gate, location, line_mask(second)));
    }
    seat.leave(gate, 1);
    (seat.end(), most)
}

// Two threads quieten the same locations side by side: the greatest numbers of tries, and the first pass.
fn quieten_beside<R: Threads + Wait + Sync>(
    rt: &R,
    gate: &Gate,
    mut first: Pass,
) -> (u32, u32, Pass)
    requires { Belongs first.chair gate.now × (first.chair.me.0.phase ≡ IdleNow) × (first.chair.me.0.tickets ≡ 2) × (first.chair.me.0.threads ≡ 2) × (length first.chair.me.0.first.cells ≡ 4) }
    ensures { Belongs result.2.chair gate.now × (result.2.chair.me.0.phase ≡ IdleNow) × (result.2.chair.me.0.threads ≡ 2) × (length result.2.chair.me.0.first.cells ≡ 4) }
{
    let one = split(&mut first, gate);
    let two = split(&mut first, gate);
    let ((one, tries), (two, others)) = run_both(
        rt,
        move || -> (Pass, u32)
            requires { IsSync R.row × Belongs one.chair gate.now × (one.chair.me.0.phase ≡ Plain) × (0 < one.chair.me.0.tickets) × (length one.chair.me.0.first.cells ≡ 4) }
            ensures { Belongs result.0.chair gate.entry.now × (result.0.chair.me.0.phase ≡ Out) }
        { quieten_all(rt, gate, one, false) },
        move || -> (Pass, u32)
            requires { IsSync R.row × Belongs two.chair gate.now × (two.chair.me.0.phase ≡ Plain) × (0 < two.chair.me.0.tickets) × (length two.chair.me.0.first.cells ≡ 4) }
            ensures { Belongs result.0.chair gate.entry.now × (result.0.chair.me.0.phase ≡ Out) }
        { quieten_all(rt, gate, two, true) },
    );
    join(&mut first, one, gate);
    join(&mut first, two, gate);
    settle(&mut first, gate);
    (tries, others, first)
}

#[test]
fn two_threads_quieten_the_same_locations(rt: HostRuntime) {
    let Ok((gate, first)) = loud_gate(rt.alloc()) else {
        panic!(rt; "no memory")
    };
    // A try fails only where the other thread changed the word since it was loaded: by its disable or by its one retire.
    let (tries, others, first) = quieten_beside(&rt, &gate, first);
    assert!(rt; tries < MOST_TRIES && others < MOST_TRIES);
    let mut stopped = match idle(first).ask(&gate).observe(&gate) {
        Ok(stopped) => stopped,
        Err(_) => panic!(rt; "a thread was attached"),
    };
    for location in 0..4 {
        assert_eq!(rt; stopped.read(&gate, location), 0xffff_fc00_0003_0101);
    }
    assert_eq!(rt; (stopped.steps(&gate, 0), stopped.steps(&gate, 1)), (1, 1));
    stopped.release(&gate).end();
}
