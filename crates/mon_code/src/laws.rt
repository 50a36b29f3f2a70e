//! Laws of the invariant of programs.

ghost use Rattle.mon_code.specs.Waiting.{KeepsNoYieldedValue};

/// No checked program lets an exception that is thrown into a generator find, behind its `yield`, a handler that keeps the
/// value which was yielded.
pub fn handlers_keep_no_yielded_value()
    ensures { KeepsNoYieldedValue }
{}
