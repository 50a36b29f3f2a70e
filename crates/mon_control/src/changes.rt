// What accepted calls change. Each takes the tool's number.
ghost use Rattle.std.specs.Prelude.{◌≡◌, ℕ, ◌<◌, ◌^◌, if◌then◌else◌, Some, None, length, slice_set, slice_index_or, []};
ghost use Rattle.mon_history.specs.Configuration.{put};
ghost use Rattle.mon_history.specs.Kept.{config_of, IsKept};
ghost use Rattle.mon_events.specs.Sets as spec;
ghost use Rattle.mon_events.specs.Events.{bit, events};
ghost use Rattle.mon_events.specs.declared.event.Event.{Event as Known};
ghost use Rattle.mon_history.specs.declared.calls.Policy.TheVariants.{Nothing};

use mon_events::{EVENTS, EventSet, event_at};
use mon_history::{Config, Policy};
use mon_values::text::Text;
use sqlite_items::Items;

pub fn name_tool(config: &mut Config, tool: u8, name: Text)
    requires low { tool < 6 }
    ensures change { config_of config.new ≡ record (config_of config.old) { tools = put (config_of config.old).tools tool (Some name) } }
    ensures kept { (codes : ℕ) → IsKept codes config.old → IsKept codes config.new }
{
    config.tools[tool as usize].name = Some(name);
}

pub fn free_tool(config: &mut Config, tool: u8)
    requires low { tool < 6 }
    ensures change { config_of config.new ≡ record (config_of config.old) { tools = put (config_of config.old).tools tool None } }
    ensures kept { (codes : ℕ) → IsKept codes config.old → IsKept codes config.new }
{
    config.tools[tool as usize].name = None;
}

pub fn set_wants(config: &mut Config, tool: u8, set: EventSet)
    requires low { tool < 6 }
    ensures change { config_of config.new ≡ record (config_of config.old) { wants = put (config_of config.old).wants tool (spec.has set.0) } }
    ensures kept { set.0 < 2 ^ events → (codes : ℕ) → IsKept codes config.old → IsKept codes config.new }
{
    config.tools[tool as usize].wants = set;
}

fn set_row(rows: &mut Items<[EventSet; 6]>, tool: u8, code: u16, set: EventSet)
    requires low { tool < 6 }
    requires code { code < length rows.old }
    ensures { rows.new ≡ slice_set rows.old code (slice_set (slice_index_or rows.old code []) tool set) }
{
    let mut row = rows.as_slice()[code as usize];
    row[tool as usize] = set;
    rows.set(code as usize, row);
}

pub fn set_local(config: &mut Config, tool: u8, code: u16, set: EventSet)
    requires low { tool < 6 }
    requires kept { (codes : ℕ) × IsKept codes config.old × (code < codes) }
    ensures change { config_of config.new ≡ record (config_of config.old) { local = put (config_of config.old).local tool (put ((config_of config.old).local tool) code (spec.has set.0)) } }
    ensures kept { set.0 < 2 ^ events → (codes : ℕ) → IsKept codes config.old → IsKept codes config.new }
{
    set_row(&mut config.local, tool, code, set);
}

// The policies by the bits of the events, with another for each event of a set.
fn policies_with(policies: [Policy; 17], set: EventSet, policy: Policy) -> [Policy; 17]
    ensures { (e : Known) → slice_index_or result (bit e) Nothing ≡ (if spec.has set.0 e then policy else slice_index_or policies (bit e) Nothing) }
{
    let mut changed = policies;
    for number in 0..EVENTS {
        if set.has(event_at(number)) {
            changed[number as usize] = policy;
        }
    }
    changed
}

/// Gives a tool a policy for each event of a set.
pub fn set_policy(config: &mut Config, tool: u8, set: EventSet, policy: Policy)
    requires low { tool < 6 }
    ensures change { config_of config.new ≡ record (config_of config.old) { calls = put (config_of config.old).calls tool (λ e. if spec.has set.0 e then policy else (config_of config.old).calls tool e) } }
    ensures kept { (codes : ℕ) → IsKept codes config.old → IsKept codes config.new }
{
    let policies = policies_with(config.tools[tool as usize].policies, set, policy);
    config.tools[tool as usize].policies = policies;
}
