ghost use Rattle.std.specs.Prelude.{◌≡◌};
ghost use Rattle.mon_builtins.specs.Answers.{AnswersValue};
ghost use Rattle.mon_builtins.specs.Builtins as spec;

use crate::given::Refusal;
use crate::literal::spelled;
use mon_values::arith::integer;
use mon_values::fault::Trouble;
use mon_values::print::text_of;
use mon_values::text::Text;
use mon_values::value::Value;
use mon_values::weight::MAX_WEIGHT;
use std::alloc::Global;

/// `str(x)`
pub fn text(alloc: Global, args: &[Value], names: &[Text]) -> Result<Value, Refusal>
    ensures { AnswersValue result (spec.text_due names.now args.now) }
{
    match args {
        [x] => {
            let text = text_of(alloc, x, names)?;
            if text.len() > MAX_WEIGHT as usize {
                return Err(Refusal::Trouble(Trouble::TOO_LARGE));
            }
            Ok(Value::Text(text))
        }
        _ => Err(Refusal::Trouble(Trouble::WRONG_COUNT)),
    }
}

/// `int(x)`
pub fn int(args: &[Value]) -> Result<Value, Trouble>
    ensures { result ≡ spec.int_of args.now }
{
    match args {
        [Value::Text(text)] => spelled(text.chars()),
        [x] => match integer(x) {
            Some(n) => Ok(Value::Int(n)),
            None => Err(Trouble::WRONG_ARGUMENT),
        },
        _ => Err(Trouble::WRONG_COUNT),
    }
}
