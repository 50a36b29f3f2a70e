ghost use Rattle.std.specs.Prelude.{◌≡◌, ℕ, IfOk, None, nat_abs, is_some, true};
ghost use Rattle.mon_history.specs.Registry as registry;
ghost use Rattle.mon_history.specs.Kept.{config_of, IsKept};

use crate::sets::{first_event, tool_of};
use mon_events::EventSet;
use mon_history::{Config, ControlCall, Policy, Reply};
use mon_instrument::local_set_of;
use std::alloc::AllocError;

fn due_name(config: &Config, id: i64) -> Result<Reply, AllocError>
    requires { registry.with_tool id (registry.tool id) (λ t. None) ≡ None }
    ensures { IfOk result (λ r. r ≡ registry.name_reply ((config_of config.now).tools (nat_abs id))) }
{
    match tool_of(id) {
        None => Ok(Reply::Nothing),
        Some(t) => match &config.tools[t as usize].name {
            None => Ok(Reply::Nothing),
            Some(name) => Ok(Reply::Name(name.copy()?)),
        },
    }
}

fn due_set(config: &Config, id: i64) -> Reply
    requires kept { (codes : ℕ) × IsKept codes config.now }
    requires accepted { registry.with_tool id (registry.tool id) (λ t. None) ≡ None }
    ensures { result ≡ registry.set_reply ((config_of config.now).wants (nat_abs id)) }
{
    match tool_of(id) {
        None => Reply::Nothing,
        Some(t) => Reply::Set(config.tools[t as usize].wants),
    }
}

fn due_local_set(config: &Config, id: i64, code: u16) -> Reply
    requires kept { (codes : ℕ) × IsKept codes config.now }
    requires accepted { registry.with_tool id (registry.tool id) (λ t. None) ≡ None }
    ensures { result ≡ registry.set_reply ((config_of config.now).local (nat_abs id) code) }
{
    match tool_of(id) {
        None => Reply::Nothing,
        Some(t) => Reply::Set(local_set_of(config.local.as_slice(), code, t)),
    }
}

/// The policy that a tool has for the first event of a set.
pub fn policy_of(config: &Config, id: i64, set: EventSet) -> Policy
    requires accepted { is_some (registry.tool id) ≡ true }
    ensures { result ≡ registry.policy_for ((config_of config.now).calls (nat_abs id)) (registry.first_event set.0) }
{
    match tool_of(id) {
        None => Policy::Nothing,
        Some(t) => match first_event(set) {
            None => Policy::Nothing,
            Some(event) => config.tools[t as usize].policies[event.number() as usize],
        },
    }
}

/// The reply of a call that is accepted.
pub fn due_reply(config: &Config, call: &ControlCall) -> Result<Reply, AllocError>
    requires kept { (codes : ℕ) × IsKept codes config.now }
    requires accepted { registry.refused (config_of config.now) call.now ≡ None }
    ensures { IfOk result (λ r. r ≡ registry.due (config_of config.now) call.now) }
{
    match call {
        ControlCall::UseToolId { .. } => Ok(Reply::Nothing),
        ControlCall::FreeToolId { .. } => Ok(Reply::Nothing),
        ControlCall::GetTool { id } => due_name(config, *id),
        ControlCall::SetEvents { .. } => Ok(Reply::Nothing),
        ControlCall::GetEvents { id } => Ok(due_set(config, *id)),
        ControlCall::SetLocalEvents { .. } => Ok(Reply::Nothing),
        ControlCall::GetLocalEvents { id, code } => Ok(due_local_set(config, *id, *code)),
        ControlCall::RegisterCallback { id, event, .. } => Ok(Reply::Was(policy_of(
            config, *id, *event,
        ))),
        ControlCall::RestartEvents => Ok(Reply::Nothing),
    }
}
