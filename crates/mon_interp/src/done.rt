//! How an instruction is done.

ghost use Rattle.std.specs.Prelude.{◌≡◌, [], IfOk};
ghost use Rattle.mon_values.specs.Troubles as troubles;
ghost use Rattle.mon_machine.specs.declared.mode.Ending.TheVariants.{Raises};
ghost use Rattle.mon_interp.specs.Moving.{plainly, thrown};

use crate::answer::raise;
use mon_events::Event;
use mon_machine::Ending;
use mon_values::fault::Trouble;
use mon_values::text::Text;
use mon_values::trouble::trouble_exc;
use mon_values::value::Exc;
use std::alloc::{AllocError, Global};

/// How an instruction ended, what it printed, and the event of the answer of a builtin or a class.
#[derive(Debug, Drop)]
pub struct Done {
    pub ending: Ending,
    pub printed: Option<Text>,
    pub ancillary: Option<Event>,
}

/// An instruction that ended so, and did nothing else but to the frames.
pub fn plain(ending: Ending) -> Done
    ensures { result ≡ plainly ending }
{
    Done {
        ending,
        printed: None,
        ancillary: None,
    }
}

/// An exception of the machine is raised, and by no builtin.
pub fn refuse(alloc: Global, trouble: Trouble) -> Result<Done, AllocError>
    ensures { IfOk result (λ done. done ≡ plainly (Raises (troubles.trouble_exc trouble []))) }
{
    Ok(plain(raise(alloc, trouble)?))
}

/// A builtin or a class raised an exception.
pub fn throw(exc: Exc) -> Done
    ensures { result ≡ thrown exc }
{
    Done {
        ending: Ending::Raises(exc),
        printed: None,
        ancillary: Some(Event::CRaise),
    }
}

/// A builtin or a class raised an exception of the machine.
pub fn throw_trouble(alloc: Global, trouble: Trouble) -> Result<Done, AllocError>
    ensures { IfOk result (λ done. done ≡ thrown (troubles.trouble_exc trouble [])) }
{
    Ok(throw(trouble_exc(alloc, trouble, &[])?))
}
