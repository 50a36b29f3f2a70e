//! Generators in a program.

ghost use Rattle.std.specs.Prelude.{◌≡◌};
ghost use Rattle.mon_compile.specs.Generators as spec;

use mon_events::Op;

/// Whether a program, by the base opcodes of its locations, has a generator function.
pub fn has_generators(bases: &[u8]) -> bool
    ensures { result ≡ spec.has_generators bases.now }
{
    for base in bases {
        if *base == Op::ReturnGenerator.number() {
            return true;
        }
    }
    false
}
