//! Calls for which the world is not stopped.
ghost use Rattle.std.specs.Prelude.{◌≡◌, ◌<◌, ◌++◌, ◌∷◌, [], ℕ, false, length, None, OnOk, OnErr, IfOk};
ghost use Rattle.mon_history.specs.Registry as registry;
ghost use Rattle.mon_history.specs.declared.calls.ControlCall.{ControlCall as Call};
ghost use Rattle.mon_history.specs.Kept.{config_of, IsKept};

use crate::calls::reply;
use crate::changes::{free_tool, name_tool};
use crate::sets::tool_of;
use mon_history::{Config, ControlCall, Journal, JournalLine, Reply, Who};
use mon_values::text::Text;
use std::alloc::AllocError;

// Names a tool that is free.
fn take_tool(config: &mut Config, id: i64, name: &Text) -> Result<(), AllocError>
    ensures ok { OnOk result (config_of config.new ≡ registry.next (config_of config.old) (Call.UseToolId id name.now)) }
    ensures kept { (codes : ℕ) → IsKept codes config.old → IsKept codes config.new }
    ensures same { OnErr result (config.new ≡ config.old) }
{
    match tool_of(id) {
        None => Ok(()),
        Some(tool) => {
            if config.tools[tool as usize].name.is_some() {
                Ok(())
            } else {
                let name = name.copy()?;
                name_tool(config, tool, name);
                Ok(())
            }
        }
    }
}

// Frees a tool.
fn drop_tool(config: &mut Config, id: i64)
    ensures change { config_of config.new ≡ registry.next (config_of config.old) (Call.FreeToolId id) }
    ensures kept { (codes : ℕ) → IsKept codes config.old → IsKept codes config.new }
{
    match tool_of(id) {
        None => {}
        Some(tool) => free_tool(config, tool),
    }
}

// What a call changes for which the world is not stopped.
fn quiet_change(config: &mut Config, call: &ControlCall) -> Result<(), AllocError>
    requires quiet { registry.stops (config_of config.old) call.now ≡ false }
    ensures ok { OnOk result (config_of config.new ≡ registry.next (config_of config.old) call.now) }
    ensures kept { (codes : ℕ) → IsKept codes config.old → IsKept codes config.new }
    ensures same { OnErr result (config.new ≡ config.old) }
{
    match call {
        ControlCall::UseToolId { id, name } => take_tool(config, *id, name),
        ControlCall::FreeToolId { id } => {
            drop_tool(config, *id);
            Ok(())
        }
        ControlCall::GetTool { .. } => Ok(()),
        ControlCall::GetEvents { .. } => Ok(()),
        ControlCall::GetLocalEvents { .. } => Ok(()),
        ControlCall::SetEvents { .. } => Ok(()),
        ControlCall::SetLocalEvents { .. } => Ok(()),
        ControlCall::RegisterCallback { .. } => Ok(()),
        ControlCall::RestartEvents => Ok(()),
    }
}

/// Makes a call for which the world is not stopped, and writes its line.
pub fn settle(
    config: &mut Config,
    journal: &mut Journal,
    who: Who,
    call: ControlCall,
) -> Result<Reply, AllocError>
    requires room { 0 < journal.old.room }
    requires few { length journal.old.lines < 256 }
    requires quiet { registry.stops (config_of config.old) call ≡ false }
    requires kept { (codes : ℕ) × IsKept codes config.old }
    ensures reply { IfOk result (λ r. r ≡ registry.reply (config_of config.old) call) }
    ensures ok { OnOk result (config_of config.new ≡ registry.next (config_of config.old) call) }
    ensures line { OnOk result (journal.new.lines ≡ journal.old.lines ++ record { call = call; who = who; reply = registry.reply (config_of config.old) call; stops = None } ∷ []) }
    ensures kept { (codes : ℕ) → IsKept codes config.old → IsKept codes config.new }
    ensures same { OnErr result (config.new ≡ config.old) }
    ensures lines { OnErr result (journal.new.lines ≡ journal.old.lines) }
{
    let answer = reply(config, &call)?;
    let kept = reply(config, &call)?;
    quiet_change(config, &call)?;
    journal.add(JournalLine {
        call,
        who,
        reply: kept,
        stops: None,
    });
    Ok(answer)
}
