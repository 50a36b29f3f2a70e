//! The sets of tools in codes.
ghost use Rattle.std.specs.Prelude.{◌≡◌, ◌<◌};
ghost use Rattle.mon_history.specs.Kept.{set_at};

use mon_events::EventSet;

/// The set of a tool in a code, by the codes' rows.
pub fn local_set_of(rows: &[[EventSet; 6]], code: u16, tool: u8) -> EventSet
    requires { tool < 6 }
    ensures { result.0 ≡ set_at rows.now code tool }
{
    match rows.get(code as usize) {
        None => EventSet(0),
        Some(row) => row[tool as usize],
    }
}
