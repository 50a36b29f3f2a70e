//! Examples over many steps.
ghost use Rattle.mon_hear.specs.Loops.{HeardOnce, DisabledOnce, HeardAgain, DisabledAgain};

/// An example, computed: in a loop whose LINE events are answered by DISABLE each location is heard and disabled once, and
/// once more after all was made live again, as `restart_events` does.
pub fn worked_loop()
    ensures heard { HeardOnce }
    ensures disabled { DisabledOnce }
    ensures heard_again { HeardAgain }
    ensures disabled_again { DisabledAgain }
{}
