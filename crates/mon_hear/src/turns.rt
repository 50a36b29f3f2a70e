//! Steps in turn.

ghost use Rattle.std.specs.Prelude.{◌≡◌, ◌<◌, ◌+◌, ◌^◌, OnOk, IsTrue, length};
ghost use Rattle.mon_words.specs.Told.{Owns};
ghost use Rattle.mon_hear.specs.Turns as spec;

use crate::step::hear_step;
use mon_recorders::{Disabled, Happening, Records};
use mon_words::Handle;
use sqlite_items::Items;
use std::alloc::AllocError;

/// A step: its location, and its events.
#[derive(Debug, Drop)]
pub struct Turn {
    pub location: u32,
    pub events: Items<Happening>,
}

/// Hears the events of steps in turn.
pub fn hear_all<H: Handle>(
    handle: &mut H,
    first: u64,
    turns: &[Turn],
    records: &mut Records,
    disables: &mut Items<Disabled>,
) -> Result<(), AllocError>
    requires attached { IsTrue (H.told handle.old).attached }
    requires owns { Owns (H.told handle.old) }
    requires turns { spec.AreTurns (H.told handle.old).first turns.now }
    requires counted { first + length turns.now < 2 ^ 64 }
    ensures heard { OnOk result (spec.AllHeard turns.now (length turns.now) first (H.told handle.old) (H.told handle.new) records.old records.new disables.old disables.new) }
    ensures rest { H.rest handle.new ≡ H.rest handle.old }
{
    let mut step = first;
    for turn in turns {
        hear_step(
            handle,
            turn.location,
            step,
            turn.events.as_slice(),
            records,
            disables,
        )?;
        step += 1;
    }
    Ok(())
}
