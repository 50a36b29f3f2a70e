// Whole calls on the configuration.
ghost use Rattle.std.specs.Prelude.{◌≡◌, ℕ, ◌<◌, ◌^◌, IfOk, Some, None, is_some, true, nat_abs};
ghost use Rattle.mon_history.specs.Registry as registry;
ghost use Rattle.mon_history.specs.Kept.{config_of, IsKept};
ghost use Rattle.mon_history.specs.declared.calls.ControlCall.{ControlCall as Call};
ghost use Rattle.mon_events.specs.Sets as spec;
ghost use Rattle.mon_control.specs.View.{NamesCode, reach_of, restarts};

use crate::changes::{set_local, set_policy, set_wants};
use crate::due::{due_reply, policy_of};
use crate::replies::refusal;
use crate::sets::tool_of;
use mon_events::{EventSet, normal};
use mon_history::{Config, ControlCall, Policy, Reply};
use mon_instrument::Reach;
use std::alloc::AllocError;

/// The reply of a call.
pub fn reply(config: &Config, call: &ControlCall) -> Result<Reply, AllocError>
    requires kept { (codes : ℕ) × IsKept codes config.now }
    ensures { IfOk result (λ r. r ≡ registry.reply (config_of config.now) call.now) }
{
    match refusal(config, call)? {
        Some(refused) => Ok(refused),
        None => due_reply(config, call),
    }
}

fn change_wants(config: &mut Config, id: i64, set: EventSet)
    requires tool { is_some (registry.tool id) ≡ true }
    requires fits { spec.is_global_set set.0 ≡ true }
    ensures change { config_of config.new ≡ registry.change (Call.SetEvents id set) (config_of config.old) }
    ensures kept { (codes : ℕ) → IsKept codes config.old → IsKept codes config.new }
{
    match tool_of(id) {
        None => {}
        Some(tool) => set_wants(config, tool, normal(set)),
    }
}

fn change_local(config: &mut Config, id: i64, code: u16, set: EventSet)
    requires tool { is_some (registry.tool id) ≡ true }
    requires kept { (codes : ℕ) × IsKept codes config.old × (code < codes) }
    requires fits { spec.is_local_set set.0 ≡ true }
    ensures change { config_of config.new ≡ registry.change (Call.SetLocalEvents id code set) (config_of config.old) }
    ensures kept { (codes : ℕ) → IsKept codes config.old → IsKept codes config.new }
{
    match tool_of(id) {
        None => {}
        Some(tool) => set_local(config, tool, code, normal(set)),
    }
}

fn change_policy(config: &mut Config, id: i64, set: EventSet, policy: Policy)
    requires tool { is_some (registry.tool id) ≡ true }
    ensures change { config_of config.new ≡ registry.change (Call.RegisterCallback id set policy) (config_of config.old) }
    ensures kept { (codes : ℕ) → IsKept codes config.old → IsKept codes config.new }
{
    match tool_of(id) {
        None => {}
        Some(tool) => set_policy(config, tool, set, policy),
    }
}

/// What an accepted call changes for which the world is stopped.
pub fn change(config: &mut Config, call: &ControlCall)
    requires accepted { registry.stops (config_of config.old) call.now ≡ true }
    requires kept { (codes : ℕ) × IsKept codes config.old × NamesCode codes call.now }
    ensures change { config_of config.new ≡ registry.change call.now (config_of config.old) }
    ensures kept { (codes : ℕ) → IsKept codes config.old → IsKept codes config.new }
{
    match call {
        ControlCall::SetEvents { id, set } => change_wants(config, *id, *set),
        ControlCall::SetLocalEvents { id, code, set } => change_local(config, *id, *code, *set),
        ControlCall::RegisterCallback { id, event, policy } => {
            change_policy(config, *id, *event, *policy)
        }
        ControlCall::RestartEvents => {}
        ControlCall::UseToolId { .. } => {}
        ControlCall::FreeToolId { .. } => {}
        ControlCall::GetTool { .. } => {}
        ControlCall::GetEvents { .. } => {}
        ControlCall::GetLocalEvents { .. } => {}
    }
}

// Whether the world is stopped for an accepted call.
fn is_stopper(call: &ControlCall) -> bool
    ensures { result ≡ registry.is_stopper call.now }
{
    match call {
        ControlCall::SetEvents { .. } => true,
        ControlCall::SetLocalEvents { .. } => true,
        ControlCall::RegisterCallback { .. } => true,
        ControlCall::RestartEvents => true,
        ControlCall::UseToolId { .. } => false,
        ControlCall::FreeToolId { .. } => false,
        ControlCall::GetTool { .. } => false,
        ControlCall::GetEvents { .. } => false,
        ControlCall::GetLocalEvents { .. } => false,
    }
}

/// Whether the call is accepted and the world is stopped for it.
pub fn stops_world(config: &Config, call: &ControlCall) -> Result<bool, AllocError>
    ensures { IfOk result (λ b. b ≡ registry.stops (config_of config.now) call.now) }
{
    let refused = refusal(config, call)?;
    Ok(refused.is_none() && is_stopper(call))
}

/// The reply of a call for which the world is stopped. It takes no memory.
pub fn stop_reply(config: &Config, call: &ControlCall) -> Reply
    requires accepted { registry.stops (config_of config.now) call.now ≡ true }
    ensures { result ≡ registry.reply (config_of config.now) call.now }
{
    match call {
        ControlCall::RegisterCallback { id, event, .. } => {
            Reply::Was(policy_of(config, *id, *event))
        }
        ControlCall::SetEvents { .. } => Reply::Nothing,
        ControlCall::SetLocalEvents { .. } => Reply::Nothing,
        ControlCall::RestartEvents => Reply::Nothing,
        ControlCall::UseToolId { .. } => Reply::Nothing,
        ControlCall::FreeToolId { .. } => Reply::Nothing,
        ControlCall::GetTool { .. } => Reply::Nothing,
        ControlCall::GetEvents { .. } => Reply::Nothing,
        ControlCall::GetLocalEvents { .. } => Reply::Nothing,
    }
}

// Where the change of a call can touch words of locations.
pub fn reach_of(call: &ControlCall) -> Reach
    ensures { result ≡ reach_of call.now }
{
    match call {
        ControlCall::SetEvents { .. } => Reach::Everywhere,
        ControlCall::SetLocalEvents { code, .. } => Reach::Code(*code),
        ControlCall::RestartEvents => Reach::Everywhere,
        ControlCall::RegisterCallback { .. } => Reach::Nowhere,
        ControlCall::UseToolId { .. } => Reach::Nowhere,
        ControlCall::FreeToolId { .. } => Reach::Nowhere,
        ControlCall::GetTool { .. } => Reach::Nowhere,
        ControlCall::GetEvents { .. } => Reach::Nowhere,
        ControlCall::GetLocalEvents { .. } => Reach::Nowhere,
    }
}

// Whether the call sets all live bits.
pub fn restarts(call: &ControlCall) -> bool
    ensures { result ≡ restarts call.now }
{
    matches!(call, ControlCall::RestartEvents)
}
