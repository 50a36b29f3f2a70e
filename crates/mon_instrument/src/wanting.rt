//! The want bits of a location.
ghost use Rattle.std.specs.Prelude.{◌≡◌, ◌<◌, ◌^◌, length, slice_index};
ghost use Rattle.mon_code.specs.Sites.{site_at, sites_of};
ghost use Rattle.mon_events.specs.Sets.{slot_of, tool_of};
ghost use Rattle.mon_history.specs.Configuration.{wanted};
ghost use Rattle.mon_history.specs.Kept.{config_of};
ghost use Rattle.mon_history.specs.Stands.{wants_bit, wanted_one};
ghost use Rattle.mon_instrument.specs.Due.{due_want};

use crate::bits::local_set_of;
use mon_code::{Program, Site};
use mon_events::{Event, Slot};
use mon_history::Config;

fn is_wanted(config: &Config, tool: u8, code: u16, event: Event) -> bool
    requires { tool < 6 }
    ensures { result ≡ wanted (config_of config.now) tool code event }
{
    config.tools[tool as usize].wants.has(event)
        || local_set_of(config.local.as_slice(), code, tool).has(event)
}

fn is_wanted_one(config: &Config, tool: u8, code: u16, event: Option<Event>) -> bool
    requires { tool < 6 }
    ensures { result ≡ wanted_one (config_of config.now) tool code event }
{
    match event {
        None => false,
        Some(event) => is_wanted(config, tool, code, event),
    }
}

// The want bit of a slot and a tool.
fn wants(config: &Config, site: &Site, slot: Slot, tool: u8) -> bool
    requires { tool < 6 }
    ensures { result ≡ wants_bit (config_of config.now) site.now slot tool }
{
    is_wanted_one(config, tool, site.code, site.event(slot))
}

// The want bit of a place.
fn wants_at(config: &Config, site: &Site, place: u8) -> bool
    requires { place < 24 }
    ensures { result ≡ wants_bit (config_of config.now) site.now (slot_of place) (tool_of place) }
{
    if place < 6 {
        wants(config, site, Slot::Line, place)
    } else if place < 12 {
        wants(config, site, Slot::Instruction, place - 6)
    } else if place < 18 {
        wants(config, site, Slot::Main, place - 12)
    } else {
        wants(config, site, Slot::Spare, place - 18)
    }
}

/// The 24 want bits of a site.
pub fn want_bits(config: &Config, site: &Site) -> u32
    ensures value { result ≡ due_want (config_of config.now) site.now }
    ensures small { result < 2 ^ 24 }
{
    let mut word: u32 = 0;
    for place in 0u8..24 {
        if wants_at(config, site, place) {
            word += 1 << place;
        }
    }
    word
}

/// The 24 want bits of a location, whose base opcode is given.
pub fn want(config: &Config, program: &Program, location: u32, base: u8) -> u32
    requires within { location < length program.now.bases }
    requires base { base ≡ slice_index program.now.bases location }
    ensures value { result ≡ due_want (config_of config.now) (site_at (sites_of program.now) location) }
    ensures small { result < 2 ^ 24 }
{
    want_bits(config, &program.site(location, base))
}
