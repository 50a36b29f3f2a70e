//! The calls that try again until they are granted. What they promise holds if they return.
ghost use Rattle.std.specs.Prelude.{◌≡◌, ◌<◌, ◌≤◌, false, IsTrue};
ghost use Rattle.mon_words.specs.Words.{stop_bit};
ghost use Rattle.mon_gate.specs.Plays.{Goes};
ghost use Rattle.mon_gate.specs.Seats.{Belongs};
ghost use Rattle.mon_gate.specs.declared.view.Phase.TheVariants.{Out, Attached};

use crate::gate::{Asked, Gate, NotYet, Seat, Stopped};
use crossbeam_utils::Backoff;
use std::sync::Wait;

/// Attaches a seat, once the world is not asked to stop. It looks before each try, so that a thread that waits does not hold
/// up the stop that it waits for.
pub fn enter<R: Wait>(rt: &R, seat: &mut Seat, gate: &Gate)
    requires gate { Belongs seat.old.chair gate.now }
    requires detached { seat.old.chair.me.0.phase ≡ Out }
    ensures gate { seat.new.chair.table_id ≡ seat.old.chair.table_id }
    ensures number { seat.new.number ≡ seat.old.number }
    ensures seen { Goes seat.old.chair.me.0 seat.new.chair.me.0.seen }
    ensures found { seat.new.chair.me.0.found < stop_bit }
    ensures tries { seat.old.chair.me.0.tally.entries < seat.new.chair.me.0.tally.entries }
    ensures view { seat.new.chair.me.0 ≡ record seat.old.chair.me.0 { phase = Attached; seen = seat.new.chair.me.0.seen; found = seat.new.chair.me.0.found; tally = record seat.old.chair.me.0.tally { entries = seat.new.chair.me.0.tally.entries } } }
{
    let backoff = Backoff::new();
    for _ in rt.forever() {
        if look_and_enter(seat, gate) {
            return;
        }
        backoff.snooze();
    }
    unreachable!()
}

// Tries to attach a seat, unless it sees that the world is asked to stop. It falls away once no thread that waits counts as
// attached.
fn look_and_enter(seat: &mut Seat, gate: &Gate) -> bool
    requires gate { Belongs seat.old.chair gate.now }
    requires detached { seat.old.chair.me.0.phase ≡ Out }
    ensures gate { seat.new.chair.table_id ≡ seat.old.chair.table_id }
    ensures number { seat.new.number ≡ seat.old.number }
    ensures seen { Goes seat.old.chair.me.0 seat.new.chair.me.0.seen }
    ensures entered { IsTrue result → (seat.new.chair.me.0.phase ≡ Attached) × (seat.new.chair.me.0.found < stop_bit) × (seat.old.chair.me.0.tally.entries < seat.new.chair.me.0.tally.entries) }
    ensures refused { result ≡ false → (seat.new.chair.me.0.phase ≡ Out) × (seat.old.chair.me.0.tally.entries ≤ seat.new.chair.me.0.tally.entries) }
    ensures view { seat.new.chair.me.0 ≡ record seat.old.chair.me.0 { phase = seat.new.chair.me.0.phase; seen = seat.new.chair.me.0.seen; found = seat.new.chair.me.0.found; tally = record seat.old.chair.me.0.tally { entries = seat.new.chair.me.0.tally.entries } } }
{
    if seat.sees_stop(gate) {
        return false;
    }
    seat.try_enter(gate).is_ok()
}

impl Asked {
    ghost use Rattle.std.specs.Prelude.{◌≡◌, ◌<◌, [], false, length};
    ghost use Rattle.mon_gate.specs.Places.{counts_attached};
    ghost use Rattle.mon_words.specs.History.{Begins, Placed, puts};
    ghost use Rattle.mon_gate.specs.Seats.{Belongs};
    ghost use Rattle.mon_gate.specs.declared.view.Phase.TheVariants.{Stopped as StoppedNow};

    /// Waits until no thread is attached.
    pub fn stop<R: Wait>(self, rt: &R, gate: &Gate) -> Stopped
        requires { Belongs self.chair gate.now }
        ensures gate { result.chair.table_id ≡ self.chair.table_id }
        ensures none { counts_attached result.chair.me.0.found ≡ false }
        ensures looks { self.chair.me.0.tally.observes < result.chair.me.0.tally.observes }
        ensures seen { Begins self.chair.me.0.seen result.chair.me.0.seen × (puts result.chair.me.0.seen ≡ self.chair.me.0.mine) }
        ensures placed { Placed (length self.chair.me.0.first.cells) result.chair.me.0.seen }
        ensures view { result.chair.me.0 ≡ record self.chair.me.0 { phase = StoppedNow; seen = result.chair.me.0.seen; noted = []; written = []; found = result.chair.me.0.found; tally = record self.chair.me.0.tally { observes = result.chair.me.0.tally.observes } } }
    {
        let backoff = Backoff::new();
        let mut asked = self;
        for _ in rt.forever() {
            match asked.observe(gate) {
                Ok(stopped) => return stopped,
                Err(
                    NotYet {
                        word: _,
                        asked: again,
                    },
                ) => asked = again,
            }
            backoff.snooze();
        }
        unreachable!()
    }
}
