//! The code of a function.

ghost use Rattle.std.specs.Prelude.{◌≡◌, ◌≤◌, length};
ghost use Rattle.mon_compile.specs.Answered.{AnswersCode};
ghost use Rattle.mon_compile.specs.Emission.{Emits};
ghost use Rattle.mon_compile.specs.Faults.{most_locals, most_locations};
ghost use Rattle.mon_compile.specs.Functions as spec;

use crate::assembly::Instruction;
use crate::emitter::{EmitFault, Emitter};
use crate::surroundings::Surroundings;
use crate::yields::is_generator;
use mon_events::Op;
use mon_trees::Text;
use mon_trees::tree::Function;
use mon_values::value::Value;
use std::alloc::Global;

/// The code of a function with these locals, where it has at most so many instructions.
pub fn function_code(
    alloc: Global,
    function: &Function,
    locals: &[Text],
    limit: usize,
) -> Result<Vec<Instruction>, EmitFault>
    requires locals { locals.now ≡ spec.locals_of function.now }
    requires few_locals { length locals.now ≤ most_locals }
    requires limit { limit ≤ most_locations }
    ensures { AnswersCode result limit function.now }
{
    let mut emitter = Emitter::new(alloc, locals, limit);
    emitter.start(is_generator(function))?;
    emitter.block(&Surroundings::Top, function.body.as_slice())?;
    emitter.end()?;
    Ok(emitter.into_code())
}

impl Emitter<'_> {
    // What stands before the body.
    fn start(&mut self, generates: bool) -> Result<(), EmitFault>
        ensures { Emits result self.old self.new (λ at. spec.start_code generates) }
    {
        let spot = self.no_line(&Surroundings::Top);
        if generates {
            self.put_plain(spot, Op::ReturnGenerator)?;
            self.put_plain(spot.above(1), Op::PopTop)?;
        }
        self.put_number(spot, Op::Resume, 0)
    }

    // What stands behind the body.
    fn end(&mut self) -> Result<(), EmitFault>
        ensures { Emits result self.old self.new (λ at. spec.end_code) }
    {
        let spot = self.no_line(&Surroundings::Top);
        self.put_constant(spot, Value::None)?;
        self.put_plain(spot.above(1), Op::ReturnValue)
    }
}
