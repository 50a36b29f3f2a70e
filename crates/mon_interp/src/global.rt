//! What a name means outside a function.

ghost use Rattle.std.specs.Prelude.{◌≡◌, take, IfOk};
ghost use Rattle.std.specs.Option.{option_copied};
ghost use Rattle.mon_values.specs.Classes.{builtin_names};
ghost use Rattle.mon_code.specs.Programs.{first_named};
ghost use Rattle.mon_machine.specs.Operations as spec;

use mon_code::{ModuleConstant, Program, is_named, is_same};
use mon_values::class::{builtin_name, class_name};
use mon_values::text::Text;
use mon_values::value::Value;
use std::alloc::AllocError;

/// The builtins that a global name may mean; the others are methods of generators.
const GLOBAL_BUILTINS: u8 = 11;

/// The exception classes.
const CLASSES: u8 = 16;

// The constant of this name.
fn constant_named<'a>(constants: &'a [ModuleConstant], name: &Text) -> Option<&'a Value>
    ensures { option_copied result ≡ spec.constant_of constants.now name.now }
{
    for constant in constants {
        if is_same(&constant.name, name) {
            return Some(&constant.value);
        }
    }
    None
}

// The builtin of this name.
#[tactic(auto, using(crate::proofs::Globals::is_builtin, crate::proofs::Globals::no_builtin))]
fn builtin_named(name: &Text) -> Option<u8>
    ensures { result ≡ first_named 0 (take spec.global_builtins builtin_names) name.now }
{
    for number in 0..GLOBAL_BUILTINS {
        if is_named(name, builtin_name(number)) {
            return Some(number);
        }
    }
    None
}

// The exception class of this name.
#[tactic(auto, using(crate::proofs::Globals::is_class, crate::proofs::Globals::no_class))]
fn class_named(name: &Text) -> Option<u8>
    ensures { result ≡ first_named 0 spec.class_names name.now }
{
    for number in 0..CLASSES {
        if is_named(name, class_name(number)) {
            return Some(number);
        }
    }
    None
}

/// What a name means outside a function: what the module calls so, else a builtin, else a class of exceptions.
pub fn global_value(program: &Program, name: &Text) -> Result<Option<Value>, AllocError>
    ensures { IfOk result (λ value. value ≡ spec.global_of program.now name.now) }
{
    if let Some(value) = constant_named(program.constants.as_slice(), name) {
        return Ok(Some(value.copy()?));
    }
    if let Some(number) = program.code_called(name) {
        return Ok(Some(Value::Function(number)));
    }
    if let Some(number) = builtin_named(name) {
        return Ok(Some(Value::Builtin(number)));
    }
    Ok(class_named(name).map(Value::ExcClass))
}
