use mon_events::EventSet;
use mon_values::text::Text;
use std::alloc::AllocError;

/// A call of the registry of tools.
#[derive(Debug, Drop)]
pub enum ControlCall {
    UseToolId {
        id: i64,
        name: Text,
    },
    FreeToolId {
        id: i64,
    },
    GetTool {
        id: i64,
    },
    SetEvents {
        id: i64,
        set: EventSet,
    },
    GetEvents {
        id: i64,
    },
    SetLocalEvents {
        id: i64,
        code: u16,
        set: EventSet,
    },
    GetLocalEvents {
        id: i64,
        code: u16,
    },
    RegisterCallback {
        id: i64,
        event: EventSet,
        policy: Policy,
    },
    RestartEvents,
}

impl ControlCall {
    ghost use Rattle.std.specs.Prelude.{◌≡◌, IfOk};

    /// A copy of this call.
    pub fn copy(&self) -> Result<ControlCall, AllocError>
        ensures { IfOk result (λ c. c ≡ self.now) }
    {
        match self {
            ControlCall::UseToolId { id, name } => {
                let name = name.copy()?;
                Ok(ControlCall::UseToolId { id: *id, name })
            }
            ControlCall::FreeToolId { id } => Ok(ControlCall::FreeToolId { id: *id }),
            ControlCall::GetTool { id } => Ok(ControlCall::GetTool { id: *id }),
            ControlCall::SetEvents { id, set } => {
                Ok(ControlCall::SetEvents { id: *id, set: *set })
            }
            ControlCall::GetEvents { id } => Ok(ControlCall::GetEvents { id: *id }),
            ControlCall::SetLocalEvents { id, code, set } => Ok(ControlCall::SetLocalEvents {
                id: *id,
                code: *code,
                set: *set,
            }),
            ControlCall::GetLocalEvents { id, code } => Ok(ControlCall::GetLocalEvents {
                id: *id,
                code: *code,
            }),
            ControlCall::RegisterCallback { id, event, policy } => {
                Ok(ControlCall::RegisterCallback {
                    id: *id,
                    event: *event,
                    policy: *policy,
                })
            }
            ControlCall::RestartEvents => Ok(ControlCall::RestartEvents),
        }
    }
}

/// What a callback does with an event: there is none, it keeps a record, or it keeps a record and asks for no more.
#[derive(Clone, Copy, Debug)]
pub enum Policy {
    Nothing,
    Keep,
    Once,
}

#[derive(Debug, Drop)]
pub enum Reply {
    Nothing,
    Name(Text),
    Set(EventSet),
    Was(Policy),
    BadTool(i64),
    ToolInUse(Text),
    BadEvent(EventSet),
}

/// Who made a call: the plan before all threads, or one of its scripts.
#[derive(Clone, Copy, Debug)]
pub enum Who {
    Before,
    Script(u8),
}
