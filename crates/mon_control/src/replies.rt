ghost use Rattle.std.specs.Prelude.{◌≡◌, ℕ, ◌<◌, IfOk, None, option_map, nat_abs, is_some};
ghost use Rattle.mon_history.specs.Registry as registry;
ghost use Rattle.mon_history.specs.Kept.{config_of};
ghost use Rattle.mon_history.specs.declared.calls.Reply.{Reply as Answer};
ghost use Rattle.mon_events.specs.Sets as spec;

use crate::sets::{is_global, is_local, tool_of};
use mon_events::{EventSet, is_local as is_local_event, single};
use mon_history::{Config, ControlCall, Policy, Reply};
use std::alloc::AllocError;

fn refuse_id(id: i64) -> Option<Reply>
    ensures { result ≡ registry.with_tool id (registry.tool id) (λ t. None) }
{
    match tool_of(id) {
        None => Some(Reply::BadTool(id)),
        Some(_) => None,
    }
}

fn refuse_use(config: &Config, id: i64) -> Result<Option<Reply>, AllocError>
    ensures { IfOk result (λ r. r ≡ registry.with_tool id (registry.tool id) (λ t. option_map Answer.ToolInUse ((config_of config.now).tools t))) }
{
    match tool_of(id) {
        None => Ok(Some(Reply::BadTool(id))),
        Some(t) => match &config.tools[t as usize].name {
            None => Ok(None),
            Some(name) => Ok(Some(Reply::ToolInUse(name.copy()?))),
        },
    }
}

fn refuse_set(config: &Config, id: i64, set: EventSet, fits: bool) -> Option<Reply>
    ensures { result ≡ registry.with_tool id (registry.tool id) (λ t. registry.ensure (is_some ((config_of config.now).tools t)) (Answer.BadTool id) (registry.ensure fits (Answer.BadEvent set) None)) }
{
    match tool_of(id) {
        None => Some(Reply::BadTool(id)),
        Some(t) => match &config.tools[t as usize].name {
            None => Some(Reply::BadTool(id)),
            Some(_) => {
                if fits {
                    None
                } else {
                    Some(Reply::BadEvent(set))
                }
            }
        },
    }
}

fn is_registrable(set: EventSet, policy: Policy) -> bool
    ensures { result ≡ registry.is_registrable set.0 policy }
{
    match single(set) {
        None => false,
        Some(event) => match policy {
            Policy::Once => is_local_event(event),
            Policy::Keep => true,
            Policy::Nothing => true,
        },
    }
}

fn refuse_register(id: i64, set: EventSet, policy: Policy) -> Option<Reply>
    ensures { result ≡ registry.with_tool id (registry.tool id) (λ t. registry.ensure (registry.is_registrable set.0 policy) (Answer.BadEvent set) None) }
{
    match tool_of(id) {
        None => Some(Reply::BadTool(id)),
        Some(_) => {
            if is_registrable(set, policy) {
                None
            } else {
                Some(Reply::BadEvent(set))
            }
        }
    }
}

/// The refusal of a call, if it is refused.
pub fn refusal(config: &Config, call: &ControlCall) -> Result<Option<Reply>, AllocError>
    ensures { IfOk result (λ r. r ≡ registry.refused (config_of config.now) call.now) }
{
    match call {
        ControlCall::UseToolId { id, .. } => refuse_use(config, *id),
        ControlCall::FreeToolId { id } => Ok(refuse_id(*id)),
        ControlCall::GetTool { id } => Ok(refuse_id(*id)),
        ControlCall::SetEvents { id, set } => Ok(refuse_set(config, *id, *set, is_global(*set))),
        ControlCall::GetEvents { id } => Ok(refuse_id(*id)),
        ControlCall::SetLocalEvents { id, set, .. } => Ok(refuse_set(
            config,
            *id,
            *set,
            is_local(*set),
        )),
        ControlCall::GetLocalEvents { id, .. } => Ok(refuse_id(*id)),
        ControlCall::RegisterCallback { id, event, policy } => Ok(refuse_register(
            *id, *event, *policy,
        )),
        ControlCall::RestartEvents => Ok(None),
    }
}
