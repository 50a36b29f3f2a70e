//! From the trees of a module to its program.

ghost use Rattle.std.specs.Prelude.{◌≡◌, ◌≤◌, [], ◌∷◌, length, map, IfOk};
ghost use Rattle.mon_compile.specs.Answered.{AddsCodes, AnswersCompiled, ListsCodes};
ghost use Rattle.mon_compile.specs.Faults.{FewLocals, most_locals, most_locations};
ghost use Rattle.mon_compile.specs.Functions.{locals_of};
ghost use Rattle.mon_compile.specs.Modules as spec;

use crate::bindings::locals;
use crate::codes::{add_bases, place, text};
use crate::expressions::single_value;
use crate::fault::CompileFault;
use crate::function::function_code;
use crate::tree_fault::tree_fault;
use mon_code::{Code, ModuleConstant, Program};
use mon_shared::SharedItems;
use mon_trees::tree::{Constant, Function, Module, ModuleItem};
use mon_values::text::Text;
use mon_values::value::{Tuple, Value};
use sqlite_items::Items;
use std::alloc::{AllocError, Global};

/// The most locations that a program may have.
const MOST_LOCATIONS: usize = 65_536;

// Codes, with the base opcodes of their locations.
#[derive(Debug, Drop)]
struct Listing {
    codes: Items<Code>,
    bases: Vec<u8>,
}

/// The program of a module, with the base opcode of each of its locations, or the first fault of the module.
pub fn compile(alloc: Global, module: &Module) -> Result<(Program, Vec<u8>), CompileFault>
    ensures { AnswersCompiled result «module».now }
{
    if let Some(fault) = tree_fault(alloc, module)? {
        return Err(fault);
    }
    let items = module.items.as_slice();
    let listing = list_codes(alloc, items)?;
    let names = names(alloc, items)?;
    let constants = constants(alloc, items)?;
    let Listing { codes, bases } = listing;
    let program = Program::new(
        names,
        constants,
        codes,
        Items::from_slice(alloc, bases.as_slice())?,
    );
    Ok((program, bases))
}

// The codes of a module's functions, unless they have too many locations.
fn list_codes(alloc: Global, items: &[ModuleItem]) -> Result<Listing, CompileFault>
    requires { FewLocals (spec.functions_of items.now) }
    ensures { ListsCodes result (spec.functions_of items.now) }
{
    let mut listing = Listing {
        codes: Items::new(alloc),
        bases: Vec::new(alloc),
    };
    for item in items {
        add_item(alloc, &mut listing, item)?;
    }
    Ok(listing)
}

fn add_item(alloc: Global, listing: &mut Listing, item: &ModuleItem) -> Result<(), CompileFault>
    requires few_locations { length listing.old.bases.items ≤ most_locations }
    requires few_locals { FewLocals (spec.functions_of (item.now ∷ [])) }
    ensures { AddsCodes result listing.old listing.new (spec.functions_of (item.now ∷ [])) }
{
    match item {
        ModuleItem::Function(function) => add_function(alloc, listing, function),
        _ => Ok(()),
    }
}

fn add_function(
    alloc: Global,
    listing: &mut Listing,
    function: &Function,
) -> Result<(), CompileFault>
    requires few_locations { length listing.old.bases.items ≤ most_locations }
    requires few_locals { length (locals_of function.now) ≤ most_locals }
    ensures { AddsCodes result listing.old listing.new (function.now ∷ []) }
{
    let locals = locals(alloc, function)?;
    let first = listing.bases.len();
    let room = MOST_LOCATIONS - first;
    let instructions = function_code(alloc, function, locals.as_slice(), room)?;
    let code = place(
        alloc,
        function,
        locals.as_slice(),
        first as u32,
        instructions.as_slice(),
    )?;
    listing.codes.push(code)?;
    add_bases(&mut listing.bases, instructions.as_slice())?;
    Ok(())
}

// The names of a module's functions.
fn names(alloc: Global, items: &[ModuleItem]) -> Result<Items<Text>, AllocError>
    ensures { IfOk result (λ names. names ≡ map spec.function_name (spec.functions_of items.now)) }
{
    let mut names = Items::new(alloc);
    let mut rest = items;
    while let Some((item, others)) = rest.split_first() {
        if let ModuleItem::Function(function) = item {
            names.push(text(alloc, &function.name)?)?;
        }
        rest = others;
    }
    Ok(names)
}

// The constants that a module names.
fn constants(alloc: Global, items: &[ModuleItem]) -> Result<Items<ModuleConstant>, AllocError>
    ensures { IfOk result (λ constants. constants ≡ spec.module_constants items.now) }
{
    let mut constants = Items::new(alloc);
    let mut rest = items;
    while let Some((item, others)) = rest.split_first() {
        if let ModuleItem::Constant(_, name, constant) = item {
            constants.push(ModuleConstant {
                name: text(alloc, name)?,
                value: value_of(alloc, constant)?,
            })?;
        }
        rest = others;
    }
    Ok(constants)
}

#[cycle(value_of)]
fn value_of(alloc: Global, constant: &Constant) -> Result<Value, AllocError>
    ensures { IfOk result (λ v. v ≡ spec.constant_value constant.now) }
{
    match constant {
        Constant::Integer(n) => Ok(Value::Int(*n)),
        Constant::Text(characters) => Ok(Value::Text(text(alloc, characters)?)),
        Constant::Single(single) => Ok(single_value(*single)),
        Constant::Empty => Ok(Value::Tuple(SharedItems::new())),
        Constant::Tuple(parts) => Ok(Value::Tuple(values_of(alloc, parts.as_slice())?)),
    }
}

#[cycle(value_of)]
fn values_of(alloc: Global, constants: &[Constant]) -> Result<Tuple, AllocError>
    ensures { IfOk result (λ values. values ≡ map spec.constant_value constants.now) }
{
    let mut values = Vec::new(alloc);
    for constant in constants {
        values.push(value_of(alloc, constant)?)?;
    }
    SharedItems::from_vec(values)
}
