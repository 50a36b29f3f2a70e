ghost use Rattle.std.specs.Prelude.{◌≡◌, IfOk};
ghost use Rattle.mon_forms.specs.Answers.{AnswersPlan, fault_at};
ghost use Rattle.mon_forms.specs.Fits.{FitsProgram};
ghost use Rattle.mon_forms.specs.Plans as spec;

use crate::draft::{Draft, LineFault};
use crate::heads::Section;
use crate::limits::MAX_PLAN_BYTES;
use crate::lines::next_line;
use crate::plan::{Plan, PlanFault, PlanKind};
use mon_code::Program;
use std::alloc::Global;

/// The fault of a line with this number.
fn at_line(line: u32, fault: LineFault) -> PlanFault
    ensures { result ≡ fault_at line fault }
{
    match fault {
        LineFault::Faulty(kind) => PlanFault::Faulty(line, kind),
        LineFault::Memory => PlanFault::Memory,
    }
}

/// The plan that a text is for a program, or the first faulty line of the text.
pub fn read_plan(alloc: Global, text: &[u8], program: &Program) -> Result<Plan, PlanFault>
    ensures plan { AnswersPlan result (spec.plan_of program.now text.now) }
    ensures fits { IfOk result (FitsProgram program.now) }
{
    if text.len() > MAX_PLAN_BYTES {
        return Err(PlanFault::Faulty(0, PlanKind::TooMany));
    }
    let mut draft = Draft::new(alloc);
    let mut rest = text;
    let mut number = 1;
    while let Some((line, more)) = next_line(rest) {
        if let Err(fault) = draft.take_line(alloc, program, line) {
            return Err(at_line(number, fault));
        }
        rest = more;
        number += 1;
    }
    if draft.section == Section::Nothing {
        return Err(PlanFault::Faulty(number, PlanKind::Order));
    }
    Ok(draft.into_plan())
}
