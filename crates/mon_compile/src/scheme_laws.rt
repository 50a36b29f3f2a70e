//! Laws of the compile scheme, for every tree.

ghost use Rattle.mon_compile.specs.Content.{ContentLaw};
ghost use Rattle.mon_compile.specs.Generators.{GeneratorsYield, PlainWithoutGenerators};
ghost use Rattle.mon_compile.specs.InLoops.{BreaksStandInLoops, TellsLoose};
ghost use Rattle.mon_compile.specs.InnerContexts.{AllHaveLabels, ClausesSameLength, ContextsAreClosed, SameLength};
ghost use Rattle.mon_compile.specs.SchemeLaws.{FitsDepths, ProgramsAreChecked};

/// The code of a block, and of the body of a `try` with its clauses, has the labels of its context and no others.
pub fn code_has_labels_of_context()
    ensures { AllHaveLabels }
{}

/// At each index of a function's code the operand stack and the handling list are as deep as recorded, and each jump and
/// handler lands on a recorded index other than 0.
pub fn function_code_fits_depths()
    ensures { FitsDepths }
{}

/// The program of a module without a fault meets the invariant of programs.
pub fn compiled_programs_are_checked()
    ensures { ProgramsAreChecked }
{}

/// The program of a module has RETURN_GENERATOR exactly where one of the module's functions has a `yield`, and without
/// it no opcode of generators.
pub fn generators_are_functions_that_yield()
    ensures generators { GeneratorsYield }
    ensures plain { PlainWithoutGenerators }
{}

/// At each index of each code, and past its end, the program of a module without a fault has the opcode, the argument by
/// content, the handler and the line of the function's code.
pub fn compiled_programs_have_content()
    ensures { ContentLaw }
{}

/// A part is as long with one index in the entry round it as with another.
pub fn lengths_depend_on_no_index()
    ensures parts { SameLength }
    ensures clauses { ClausesSameLength }
{}

/// Each context in which a part of a function stands has indexes alone.
pub fn contexts_have_indexes_alone()
    ensures { ContextsAreClosed }
{}

/// In a module without a fault each `break` and `continue` stands in a loop.
pub fn breaks_stand_in_loops()
    ensures module { BreaksStandInLoops }
    ensures block { TellsLoose }
{}
