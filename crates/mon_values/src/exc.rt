ghost use Rattle.std.specs.Option.{option_copied};
ghost use Rattle.mon_values.specs.Answers.{AnswersExc};
ghost use Rattle.mon_values.specs.Weights.{made_exc, exc_of};

use crate::fault::{ExcFault, Trouble};
use crate::value::{Exc, Value};
use crate::weight::{MAX_DEPTH, MAX_WEIGHT};
use mon_shared::SharedBox;
use std::alloc::Global;

/// An exception of a class with a copy of an argument, where it keeps the limits of weight and depth.
#[tactic(auto, using(crate::proofs::Making::heavy, crate::proofs::Making::deep, crate::proofs::Making::within))]
pub fn make_exc(alloc: Global, class: u8, arg: Option<&Value>) -> Result<Exc, ExcFault>
    ensures { AnswersExc result (made_exc (exc_of class (option_copied arg.entry))) }
{
    match arg {
        None => Ok(Exc { class, arg: None }),
        Some(value) => {
            if !value.weighs_at_most(MAX_WEIGHT - 1) {
                return Err(ExcFault::Trouble(Trouble::TOO_LARGE));
            }
            if !value.nests_at_most(MAX_DEPTH - 1) {
                return Err(ExcFault::Trouble(Trouble::NESTED_TOO_DEEPLY));
            }
            let value = value.copy()?;
            Ok(Exc {
                class,
                arg: Some(SharedBox::new(alloc, value)?),
            })
        }
    }
}
