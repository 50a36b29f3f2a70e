//! How an instruction ends that has an answer to push or to raise.

ghost use Rattle.std.specs.Prelude.{◌≡◌, ◌<◌, [], ◌∷◌, IfOk};
ghost use Rattle.mon_values.specs.Troubles as troubles;
ghost use Rattle.mon_machine.specs.State as state;
ghost use Rattle.mon_machine.specs.Operations as spec;
ghost use Rattle.mon_machine.specs.declared.mode.Ending.TheVariants.{Raises};

use mon_frames::Frame;
use mon_machine::Ending;
use mon_values::fault::Trouble;
use mon_values::trouble::trouble_exc;
use mon_values::value::Value;
use std::alloc::{AllocError, Global};

/// Goes on with the next instruction.
pub fn go_on(frame: &mut Frame) -> Ending
    requires { frame.old.index < 65536 }
    ensures { state.goes_on frame.old frame.old.stack ≡ record { frame = frame.new; ending = result } }
{
    frame.index += 1;
    Ending::Continues
}

/// Goes on with one more value on the stack.
pub fn push(frame: &mut Frame, value: Value) -> Result<Ending, AllocError>
    requires { frame.old.index < 65536 }
    ensures { IfOk result (λ ending. state.goes_on frame.old (value ∷ frame.old.stack) ≡ record { frame = frame.new; ending = ending }) }
{
    frame.stack.push(value)?;
    Ok(go_on(frame))
}

/// Raises an exception of the machine, in whose text a name may stand.
pub fn raise_named(alloc: Global, trouble: Trouble, name: &[char]) -> Result<Ending, AllocError>
    ensures { IfOk result (λ ending. ending ≡ Raises (troubles.trouble_exc trouble name.now)) }
{
    Ok(Ending::Raises(trouble_exc(alloc, trouble, name)?))
}

/// Raises an exception of the machine.
pub fn raise(alloc: Global, trouble: Trouble) -> Result<Ending, AllocError>
    ensures { IfOk result (λ ending. ending ≡ Raises (troubles.trouble_exc trouble [])) }
{
    raise_named(alloc, trouble, &[])
}

/// Pushes what the values' tables gave, or raises it.
pub fn give(
    alloc: Global,
    frame: &mut Frame,
    given: Result<Value, Trouble>,
) -> Result<Ending, AllocError>
    requires { frame.old.index < 65536 }
    ensures { IfOk result (λ ending. spec.gives frame.old frame.old.stack given ≡ record { frame = frame.new; ending = ending }) }
{
    match given {
        Ok(value) => push(frame, value),
        Err(trouble) => raise(alloc, trouble),
    }
}
