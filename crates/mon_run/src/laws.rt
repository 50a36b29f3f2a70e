//! Laws of runs.
ghost use Rattle.mon_run.specs.Examples.{WorkedRun};
ghost use Rattle.mon_run.specs.Laws.{LegalNamesCodes, LegalStepsRise, PlansAreProper, SerialFollows};

/// A law: whatever the schedule of a plan, the journal of its serial run has the calls before all threads first, and then
/// those of each script, in their order, and no other.
pub fn serial_runs_follow_plans()
    ensures { SerialFollows }
{}

/// Two threads that run the same two lines in turn, under a callback that answers DISABLE and a script: the journal, the
/// history, and the records and disables of the serial run.
pub fn worked_serial_run()
    ensures { WorkedRun }
{}

/// A law: in a legal report the steps of a thread's records and disables never fall, and are below its number of steps.
pub fn steps_of_legal_reports_rise()
    ensures { LegalStepsRise }
{}

/// A law: each code that is named by a record or a disable of a legal report is one of the program's, if the plan fits the
/// program, which has no opcode but those that are run so far.
pub fn legal_reports_name_codes()
    ensures { LegalNamesCodes }
{}

/// A law: each event of a thread of a plan that fits stands where its kind says, if the program has no opcode but those that
/// are run so far.
pub fn events_of_plans_are_proper()
    ensures { PlansAreProper }
{}
