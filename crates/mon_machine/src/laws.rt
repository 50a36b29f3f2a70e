ghost use Rattle.mon_machine.specs.AdvanceExamples.{WorkedAdvance};
ghost use Rattle.mon_machine.specs.AdvanceLaws.{StepsAddUp, StayingAddsUp, PausesAddUp, RunsJoin, RunsContinue, EventsStandAtSteps, LoadsStandAtSteps, BareRuns, LinesAreKept};
ghost use Rattle.mon_machine.specs.LastLines.{LastLinesAreForEvents};
ghost use Rattle.mon_machine.specs.Pools.{PoolsGrowByOne, NumbersSuffice};
ghost use Rattle.mon_machine.specs.Laws.{DepthsAsRecorded, EventsNameCodes, GoesOnByOne, LimitsAreBounds, LineMarks, NeverStuck, ProperEvents, RunsAddUp};

/// A run goes on step by step, and a thread that does not go on stands still.
pub fn goes_on_by_one()
    ensures { GoesOnByOne }
{}

/// A run of some steps and then of more is that of their sum, in its states and in what it prints.
pub fn runs_add_up()
    ensures { RunsAddUp }
{}

/// The last line of a frame is read by events alone: without last lines a run leads, but for these, to the same states, and
/// prints the same.
pub fn last_lines_are_for_events()
    ensures { LastLinesAreForEvents }
{}

/// A thread that calls a code of a checked program with the right number of arguments never misses an operand, a local,
/// a location or a frame.
pub fn never_stuck()
    ensures { NeverStuck }
{}

/// Before each instruction of such a thread, the top frame's operand stack and handling list have the depths that are
/// recorded at its location. Each frame below has one value less than is recorded behind its call, and so has the top frame
/// where its call has an answer.
pub fn depths_as_recorded()
    ensures { DepthsAsRecorded }
{}

/// Such a thread has the outcome `Limit` after a number of steps exactly where it did them all and still goes on.
pub fn limits_are_bounds()
    ensures { LimitsAreBounds }
{}

/// A step makes one generator and one iterator at most, so that a thread that does no more steps than it may has numbers for all.
pub fn pools_grow_by_one()
    ensures grow { PoolsGrowByOne }
    ensures suffice { NumbersSuffice }
{}

/// LINE events of such a thread occur at marked locations alone.
pub fn line_marks()
    ensures { LineMarks }
{}

/// Each event of such a thread stands where its kind says: it is that of its slot at its location, one that is enabled where
/// CALL is the event of a location, or one that is global alone.
pub fn proper_events()
    ensures { ProperEvents }
{}

/// Each event of such a thread names a code of the program.
pub fn events_name_codes()
    ensures { EventsNameCodes }
{}

/// An advance is made of its steps, and of the polls before them.
pub fn advances_add_up()
    ensures steps { StepsAddUp }
    ensures stays { StayingAddsUp }
    ensures pauses { PausesAddUp }
{}

/// Two advances, between which a thread left and entered, are one.
pub fn advances_join()
    ensures { RunsJoin }
{}

/// What an advance does to a handle is among what any calls do: its disables are the answers of its steps.
pub fn advances_continue()
    ensures { RunsContinue }
{}

/// The events of an instruction are of its location, or enabled by the global word; without an instruction all are of the
/// second kind. The loads of locations in an advance are one for each instruction, of its location.
pub fn advances_stand_at_steps()
    ensures events { EventsStandAtSteps }
    ensures loads { LoadsStandAtSteps }
{}

/// Where nothing is wanted nothing is recorded, and a thread that is not asked to stop is where the plain run is.
pub fn bare_runs()
    ensures { BareRuns }
{}

/// Where one tool keeps LINE at the marked locations, its records of a thread that runs alone are its LINE events, and
/// nothing is disabled.
pub fn lines_are_kept()
    ensures { LinesAreKept }
{}

/// Two lines of a function under a callback that answers DISABLE: polls, loads, records and disables of the whole run.
pub fn worked_advance()
    ensures { WorkedAdvance }
{}
