use mon_code::is_named;
use mon_events::EventSet;
use mon_history::{ControlCall, Policy, Reply};
use mon_values::text::Text;
use std::alloc::{AllocError, Global};

/// A call, whose name is a string.
#[derive(Clone, Copy, Debug)]
pub enum Ask {
    UseToolId(i64, &'static str),
    GetTool(i64),
    SetEvents(i64, u32),
    SetLocalEvents(i64, u16, u32),
    GetLocalEvents(i64, u16),
    RegisterCallback(i64, u32, Policy),
    RestartEvents,
}

impl Ask {
    pub fn call(self, alloc: Global) -> Result<ControlCall, AllocError> {
        match self {
            Ask::UseToolId(id, name) => {
                let name = Text::from_ascii(alloc, name)?;
                Ok(ControlCall::UseToolId { id, name })
            }
            Ask::GetTool(id) => Ok(ControlCall::GetTool { id }),
            Ask::SetEvents(id, set) => Ok(ControlCall::SetEvents {
                id,
                set: EventSet(set),
            }),
            Ask::SetLocalEvents(id, code, set) => Ok(ControlCall::SetLocalEvents {
                id,
                code,
                set: EventSet(set),
            }),
            Ask::GetLocalEvents(id, code) => Ok(ControlCall::GetLocalEvents { id, code }),
            Ask::RegisterCallback(id, event, policy) => Ok(ControlCall::RegisterCallback {
                id,
                event: EventSet(event),
                policy,
            }),
            Ask::RestartEvents => Ok(ControlCall::RestartEvents),
        }
    }
}

/// A reply, whose name is a string.
#[derive(Clone, Copy, Debug)]
pub enum Due {
    Nothing,
    Name(&'static str),
    Set(u32),
    Was(Policy),
    BadTool(i64),
    ToolInUse(&'static str),
    BadEvent(u32),
}

fn is_policy(a: Policy, b: Policy) -> bool {
    match a {
        Policy::Nothing => matches!(b, Policy::Nothing),
        Policy::Keep => matches!(b, Policy::Keep),
        Policy::Once => matches!(b, Policy::Once),
    }
}

impl Due {
    pub fn is(self, reply: &Reply) -> bool {
        match reply {
            Reply::Nothing => matches!(self, Due::Nothing),
            Reply::Name(text) => matches!(self, Due::Name(name) if is_named(text, name)),
            Reply::Set(set) => matches!(self, Due::Set(bits) if set.0 == bits),
            Reply::Was(policy) => matches!(self, Due::Was(due) if is_policy(*policy, due)),
            Reply::BadTool(id) => matches!(self, Due::BadTool(due) if *id == due),
            Reply::ToolInUse(text) => matches!(self, Due::ToolInUse(name) if is_named(text, name)),
            Reply::BadEvent(set) => matches!(self, Due::BadEvent(bits) if set.0 == bits),
        }
    }
}

/// How many locations were read and rewritten, how many other words were stored, and which of the first 64 locations had a
/// want bit when they were read.
#[derive(Clone, Copy, Debug)]
pub struct Touched {
    pub reads: u32,
    pub rewrites: u32,
    pub stores: u32,
    pub wanted: u64,
}

impl Touched {
    pub const NOTHING: Touched = Touched {
        reads: 0,
        rewrites: 0,
        stores: 0,
        wanted: 0,
    };

    pub fn are(&self, reads: u32, rewrites: u32, stores: u32, wanted: u64) -> bool {
        self.reads == reads
            && self.rewrites == rewrites
            && self.stores == stores
            && self.wanted == wanted
    }
}

/// What became of a call.
#[derive(Debug, Drop)]
pub struct Made {
    pub reply: Reply,
    pub counts: Touched,
}
