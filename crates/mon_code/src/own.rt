//! Copies of a program that share nothing with it.

ghost use Rattle.std.specs.Prelude.{◌≡◌, IfOk};

use crate::program::{Code, ModuleConstant};
use mon_values::text::Text;
use mon_values::value::Value;
use sqlite_items::Items;
use std::alloc::{AllocError, Global};

/// The same texts.
pub fn own_texts(alloc: Global, texts: &[Text]) -> Result<Items<Text>, AllocError>
    ensures { IfOk result (λ copies. copies ≡ texts.now) }
{
    let mut copies = Vec::with_capacity(alloc, texts.len())?;
    for text in texts {
        copies.push(text.own(alloc)?)?;
    }
    Ok(Items::from_vec(copies))
}

fn own_values(alloc: Global, values: &[Value]) -> Result<Items<Value>, AllocError>
    ensures { IfOk result (λ copies. copies ≡ values.now) }
{
    let mut copies = Vec::with_capacity(alloc, values.len())?;
    for value in values {
        copies.push(value.own(alloc)?)?;
    }
    Ok(Items::from_vec(copies))
}

fn own_constant(alloc: Global, constant: &ModuleConstant) -> Result<ModuleConstant, AllocError>
    ensures { IfOk result (λ copy. copy ≡ constant.now) }
{
    Ok(ModuleConstant {
        name: constant.name.own(alloc)?,
        value: constant.value.own(alloc)?,
    })
}

/// The same constants of the module.
pub fn own_constants(
    alloc: Global,
    constants: &[ModuleConstant],
) -> Result<Items<ModuleConstant>, AllocError>
    ensures { IfOk result (λ copies. copies ≡ constants.now) }
{
    let mut copies = Vec::with_capacity(alloc, constants.len())?;
    for constant in constants {
        copies.push(own_constant(alloc, constant)?)?;
    }
    Ok(Items::from_vec(copies))
}

fn own_code(alloc: Global, code: &Code) -> Result<Code, AllocError>
    ensures { IfOk result (λ copy. copy ≡ code.now) }
{
    Ok(Code {
        parameters: code.parameters,
        locals: own_texts(alloc, code.locals.as_slice())?,
        globals: own_texts(alloc, code.globals.as_slice())?,
        constants: own_values(alloc, code.constants.as_slice())?,
        first: code.first,
        locations: Items::from_slice(alloc, code.locations.as_slice())?,
    })
}

/// The same codes.
pub fn own_codes(alloc: Global, codes: &[Code]) -> Result<Items<Code>, AllocError>
    ensures { IfOk result (λ copies. copies ≡ codes.now) }
{
    let mut copies = Vec::with_capacity(alloc, codes.len())?;
    for code in codes {
        copies.push(own_code(alloc, code)?)?;
    }
    Ok(Items::from_vec(copies))
}
