//! What the calls of a handle do together.
ghost use Rattle.mon_words.specs.Laws.{StaysAddUp, CallsAddUp};

/// A law: what loads, disables and tries to retire do is one relation, in which they add up.
pub fn stays_add_up()
    ensures { StaysAddUp }
{}

/// A law: what any calls of a handle do, over rounds of entering and leaving, is one relation, in which they add up.
pub fn calls_add_up()
    ensures { CallsAddUp }
{}
