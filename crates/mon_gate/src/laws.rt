//! What the rule of the table says.
ghost use Rattle.mon_gate.specs.Laws.{StoppedIsAlone};

/// A law: between any two steps, while a controller is stopped no seat is attached.
pub fn stopped_is_alone()
    ensures { StoppedIsAlone }
{}
