ghost use Rattle.std.specs.Prelude.{◌≡◌};
ghost use Rattle.mon_forms.specs.Calls as spec;

use mon_events::EventSet;
use mon_history::{ControlCall, Policy};
use mon_values::text::Text;

/// A control call, by its name alone.
#[derive(Clone, Copy, Debug, PartialEq, Eq)]
pub enum CallKind {
    UseToolId,
    FreeToolId,
    GetTool,
    SetEvents,
    GetEvents,
    SetLocalEvents,
    GetLocalEvents,
    RegisterCallback,
    RestartEvents,
}

/// What stands behind the name of a control call.
#[derive(Clone, Copy, Debug, PartialEq, Eq)]
pub enum Operand {
    /// The id of a tool.
    Id,
    /// The name of a tool.
    Name,
    /// The name of a code.
    Code,
    /// A set of events.
    Set,
    Policy,
}

/// The operands of a control call; what it has not is of no account.
#[derive(Debug, Drop)]
pub struct CallParts {
    pub id: i64,
    pub name: Text,
    pub code: u16,
    pub set: EventSet,
    pub policy: Policy,
}

impl CallParts {
    /// The operands of a call that has none.
    pub fn new() -> CallParts
        ensures { result ≡ spec.no_parts }
    {
        CallParts {
            id: 0,
            name: Text::new(),
            code: 0,
            set: EventSet(0),
            policy: Policy::Nothing,
        }
    }
}

impl CallKind {
    ghost use Rattle.std.specs.Prelude.{◌≡◌};
    ghost use Rattle.mon_forms.specs.Calls as spec;

    /// Its name.
    pub fn word(self) -> &'static str
        ensures { result.now ≡ spec.call_word self }
    {
        match self {
            CallKind::UseToolId => "use_tool_id",
            CallKind::FreeToolId => "free_tool_id",
            CallKind::GetTool => "get_tool",
            CallKind::SetEvents => "set_events",
            CallKind::GetEvents => "get_events",
            CallKind::SetLocalEvents => "set_local_events",
            CallKind::GetLocalEvents => "get_local_events",
            CallKind::RegisterCallback => "register_callback",
            CallKind::RestartEvents => "restart_events",
        }
    }

    /// What stands behind the name, in order.
    pub fn operands(self) -> &'static [Operand]
        ensures { result.now ≡ spec.operands_of self }
    {
        match self {
            CallKind::UseToolId => &[Operand::Id, Operand::Name],
            CallKind::FreeToolId => &[Operand::Id],
            CallKind::GetTool => &[Operand::Id],
            CallKind::SetEvents => &[Operand::Id, Operand::Set],
            CallKind::GetEvents => &[Operand::Id],
            CallKind::SetLocalEvents => &[Operand::Id, Operand::Code, Operand::Set],
            CallKind::GetLocalEvents => &[Operand::Id, Operand::Code],
            CallKind::RegisterCallback => &[Operand::Id, Operand::Set, Operand::Policy],
            CallKind::RestartEvents => &[],
        }
    }

    /// The call with these operands.
    pub fn call(self, parts: CallParts) -> ControlCall
        ensures { result ≡ spec.call_with self parts }
    {
        let CallParts {
            id,
            name,
            code,
            set,
            policy,
        } = parts;
        match self {
            CallKind::UseToolId => ControlCall::UseToolId { id, name },
            CallKind::FreeToolId => ControlCall::FreeToolId { id },
            CallKind::GetTool => ControlCall::GetTool { id },
            CallKind::SetEvents => ControlCall::SetEvents { id, set },
            CallKind::GetEvents => ControlCall::GetEvents { id },
            CallKind::SetLocalEvents => ControlCall::SetLocalEvents { id, code, set },
            CallKind::GetLocalEvents => ControlCall::GetLocalEvents { id, code },
            CallKind::RegisterCallback => ControlCall::RegisterCallback {
                id,
                event: set,
                policy,
            },
            CallKind::RestartEvents => ControlCall::RestartEvents,
        }
    }
}
