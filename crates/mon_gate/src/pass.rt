//! Passes are cut in two, put together, and turned into seats.
ghost use Rattle.std.specs.Prelude.{◌≡◌, ◌-◌, ◌<◌, []};
ghost use Rattle.mon_words.specs.History.{Begins, UpTo, offs};
ghost use Rattle.mon_words.specs.Tallies.{no_tally};
ghost use Rattle.mon_gate.specs.Rule.{alive, inside, leads, stops};
ghost use Rattle.mon_gate.specs.Plays.{cut_left, cut_right, joined, Whole};
ghost use Rattle.mon_gate.specs.Seats.{Belongs};
ghost use Rattle.mon_gate.specs.declared.view.Phase.TheVariants.{Plain, Out};

use crate::gate::{Gate, Pass, Seat};
use crate::place::{CLAIMS, GATE};
use crate::play::{Both, Claim, Cut, Settle};

/// Draws a number below the number of threads. The pass is plain and holds a ticket.
pub fn claim(pass: Pass, gate: &Gate) -> Seat
    requires gate { Belongs pass.chair gate.now }
    requires plain { pass.chair.me.0.phase ≡ Plain }
    requires ticket { 0 < pass.chair.me.0.tickets }
    ensures gate { result.chair.table_id ≡ pass.chair.table_id }
    ensures number { result.number < pass.chair.me.0.threads }
    ensures view { result.chair.me.0 ≡ record pass.chair.me.0 { phase = Out; number = result.number; stored = 0; mine = []; tickets = pass.chair.me.0.tickets - 1; tally = no_tally } }
    ensures stops { UpTo result.number 0 pass.chair.me.0.seen }
    ensures disables { offs result.number pass.chair.me.0.seen ≡ [] }
{
    let Pass { mut chair } = pass;
    let found = gate.table.shared.fetch_add::<Claim>(&mut chair, CLAIMS, 1);
    let number = found as u8;
    Seat { chair, number }
}

/// Cuts a pass in two. The new one has a ticket where there is one.
pub fn split(pass: &mut Pass, gate: &Gate) -> Pass
    requires gate { Belongs pass.old.chair gate.now }
    requires alive { 0 < alive pass.old.chair.me.0.phase }
    ensures left_gate { pass.new.chair.table_id ≡ pass.old.chair.table_id }
    ensures left { pass.new.chair.me.0 ≡ cut_left pass.old.chair.me.0 }
    ensures right_gate { result.chair.table_id ≡ pass.old.chair.table_id }
    ensures right { result.chair.me.0 ≡ cut_right pass.old.chair.me.0 }
{
    let chair = &mut pass.chair;
    let chair = gate.table.shared.split_seat::<Cut>(chair);
    Pass { chair }
}

/// Takes another pass in, which is not the first of the gate. Of what the two had seen the longer is kept.
pub fn join(pass: &mut Pass, other: Pass, gate: &Gate)
    requires gate { Belongs pass.old.chair gate.now }
    requires other_gate { Belongs other.chair gate.now }
    requires pass { (0 < alive pass.old.chair.me.0.phase) × (inside pass.old.chair.me.0.phase ≡ 0) × (stops pass.old.chair.me.0.phase ≡ 0) }
    requires other { (leads other.chair.me.0.phase ≡ 0) × (inside other.chair.me.0.phase ≡ 0) }
    ensures gate { pass.new.chair.table_id ≡ pass.old.chair.table_id }
    ensures view { pass.new.chair.me.0 ≡ joined pass.old.chair.me.0 other.chair.me.0 }
    ensures begins { Begins pass.old.chair.me.0.seen pass.new.chair.me.0.seen }
{
    let chair = &mut pass.chair;
    let Pass { chair: theirs } = other;
    gate.table.shared.join_seat::<Both>(chair, theirs);
}

/// Lets a pass see all of the history, and tells what it knows of it.
pub fn settle(pass: &mut Pass, gate: &Gate)
    requires gate { Belongs pass.old.chair gate.now }
    requires pass { (0 < alive pass.old.chair.me.0.phase) × (inside pass.old.chair.me.0.phase ≡ 0) × (stops pass.old.chair.me.0.phase ≡ 0) }
    ensures gate { pass.new.chair.table_id ≡ pass.old.chair.table_id }
    ensures view { pass.new.chair.me.0 ≡ record pass.old.chair.me.0 { seen = pass.new.chair.me.0.seen } }
    ensures whole { Whole pass.old.chair.me.0 pass.new.chair.me.0.seen }
{
    let chair = &mut pass.chair;
    gate.table.shared.load::<Settle>(chair, GATE);
}
