//! Laws of readings.

ghost use Rattle.mon_recorders.specs.Examples.{HeardInTurn, DisabledInTurn, MarkedInTurn};
ghost use Rattle.mon_recorders.specs.RowExamples.{LinesOfAllThreads, CallsByName, BranchesBySide, LinesCovered};
ghost use Rattle.mon_recorders.specs.Laws.{OneMore, Joined, ToldByPlace};

/// A law: a reading goes on by a step.
pub fn one_step_more()
    ensures { OneMore }
{}

/// A law: a reading goes on by that of a later call, where in between the thread added no mark of its own.
pub fn readings_join()
    ensures { Joined }
{}

/// A law: four events of a step go to those of six tools that hear them, in ascending order; DISABLE is answered to the
/// local ones alone, and marks their slot and tool.
pub fn worked_deliveries()
    ensures heard { HeardInTurn }
    ensures disabled { DisabledInTurn }
    ensures marked { MarkedInTurn }
{}

/// A law: what is told of a disable is known from its location, slot and tool, so that it can be told from a history.
pub fn disables_are_told_by_place()
    ensures { ToldByPlace }
{}

/// A law: rows count the records of one tool over two threads, by code, then by what is called, then by the numbers.
pub fn worked_rows()
    ensures lines { LinesOfAllThreads }
    ensures calls { CallsByName }
    ensures branches { BranchesBySide }
    ensures coverage { LinesCovered }
{}
