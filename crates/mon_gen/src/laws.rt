//! Laws of the generated programs and plans.

ghost use Rattle.mon_gen.specs.Laws.{PlansFit, ProgramsHaveNoFault};

/// The program of each size up to [`MAX_LOOPS`](crate::MAX_LOOPS) compiles.
pub fn generated_programs_have_no_fault()
    ensures { ProgramsHaveNoFault }
{}

/// The plan of each size up to [`MAX_LOOPS`](crate::MAX_LOOPS) fits the size's program.
pub fn generated_plans_fit()
    ensures { PlansFit }
{}
