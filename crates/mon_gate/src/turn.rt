//! The first pass of a gate becomes its controller.
ghost use Rattle.std.specs.Prelude.{◌≡◌};
ghost use Rattle.mon_gate.specs.declared.view.Phase.TheVariants.{Idle as IdleNow};

use crate::gate::{Idle, Pass};

/// Turns the first pass of a gate into its controller, without a step.
pub fn idle(pass: Pass) -> Idle
    requires { pass.chair.me.0.phase ≡ IdleNow }
    ensures gate { result.chair.table_id ≡ pass.chair.table_id }
    ensures view { result.chair.me.0 ≡ pass.chair.me.0 }
{
    let Pass { chair } = pass;
    Idle { chair }
}
