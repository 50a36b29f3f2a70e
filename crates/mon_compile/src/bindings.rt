//! The names that a function binds.

ghost use Rattle.std.specs.Prelude.{◌≡◌, ◌≤◌, ◌<◌, [], ◌∷◌, length, map, IfOk, OnOk};
ghost use Rattle.mon_compile.specs.Bindings.{few_names};
ghost use Rattle.mon_compile.specs.Clauses as clause;
ghost use Rattle.mon_compile.specs.Functions as spec;

use crate::scope::{copy, is_local};
use mon_trees::Text;
use mon_trees::tree::{Function, Handler, Simple, Statement, Targets};
use sqlite_items::Items;
use std::alloc::{AllocError, Global};

/// The locals of a function: its parameters, then each other name that it assigns to, by its first place.
pub fn locals(alloc: Global, function: &Function) -> Result<Items<Text>, AllocError>
    ensures { IfOk result (λ names. names ≡ spec.locals_of function.now) }
{
    bindings(alloc, function, usize::MAX)
}

/// The locals of a function; once there are more than `most`, no further one is gathered.
pub fn bindings(alloc: Global, function: &Function, most: usize) -> Result<Items<Text>, AllocError>
    ensures few { IfOk result (λ names. length names ≤ most → names ≡ spec.locals_of function.now) }
    ensures many { IfOk result (λ names. most < length names → most < length (spec.locals_of function.now)) }
{
    let mut names = Items::new(alloc);
    for name in function.parameters.as_slice() {
        names.push(copy(alloc, name)?)?;
    }
    bind_block(alloc, &mut names, most, function.body.as_slice())?;
    Ok(names)
}

#[cycle(bind_block)]
fn bind_block(
    alloc: Global,
    names: &mut Items<Text>,
    most: usize,
    body: &[Statement],
) -> Result<(), AllocError>
    ensures { OnOk result (names.new ≡ few_names most names.old (spec.joined (map spec.names_of body.now))) }
{
    for statement in body {
        bind_statement(alloc, names, most, statement)?;
    }
    Ok(())
}

#[cycle(bind_block)]
fn bind_statement(
    alloc: Global,
    names: &mut Items<Text>,
    most: usize,
    statement: &Statement,
) -> Result<(), AllocError>
    ensures { OnOk result (names.new ≡ few_names most names.old (spec.names_of statement.now)) }
{
    match statement {
        Statement::Simple(_, simple) => bind_simple(alloc, names, most, simple),
        Statement::If(_, _, body, other) => {
            bind_block(alloc, names, most, body.as_slice())?;
            bind_block(alloc, names, most, other.as_slice())
        }
        Statement::While(_, _, body) => bind_block(alloc, names, most, body.as_slice()),
        Statement::For(_, targets, _, body) => {
            bind_targets(alloc, names, most, targets)?;
            bind_block(alloc, names, most, body.as_slice())
        }
        Statement::Try(_, body, handlers, last) => {
            bind_block(alloc, names, most, body.as_slice())?;
            bind_handlers(alloc, names, most, handlers.as_slice())?;
            bind_block(alloc, names, most, last.as_slice())
        }
    }
}

#[cycle(bind_block)]
fn bind_handlers(
    alloc: Global,
    names: &mut Items<Text>,
    most: usize,
    handlers: &[Handler],
) -> Result<(), AllocError>
    ensures { OnOk result (names.new ≡ few_names most names.old (spec.joined (map clause.clause_names handlers.now))) }
{
    for handler in handlers {
        bind_handler(alloc, names, most, handler)?;
    }
    Ok(())
}

#[cycle(bind_block)]
fn bind_handler(
    alloc: Global,
    names: &mut Items<Text>,
    most: usize,
    handler: &Handler,
) -> Result<(), AllocError>
    ensures { OnOk result (names.new ≡ few_names most names.old (clause.clause_names handler.now)) }
{
    if let Some(name) = &handler.name {
        bind(alloc, names, most, name)?;
    }
    bind_block(alloc, names, most, handler.body.as_slice())
}

fn bind_simple(
    alloc: Global,
    names: &mut Items<Text>,
    most: usize,
    simple: &Simple,
) -> Result<(), AllocError>
    ensures { OnOk result (names.new ≡ few_names most names.old (spec.simple_names simple.now)) }
{
    match simple {
        Simple::Augmented(name, _, _) => bind(alloc, names, most, name),
        Simple::Assign(targets, _) => bind_targets(alloc, names, most, targets),
        _ => Ok(()),
    }
}

fn bind_targets(
    alloc: Global,
    names: &mut Items<Text>,
    most: usize,
    targets: &Targets,
) -> Result<(), AllocError>
    ensures { OnOk result (names.new ≡ few_names most names.old (spec.target_names targets.now)) }
{
    match targets {
        Targets::Name(name) => bind(alloc, names, most, name),
        Targets::Tuple(targets) => bind_all(alloc, names, most, targets.as_slice()),
    }
}

fn bind_all(
    alloc: Global,
    names: &mut Items<Text>,
    most: usize,
    more: &[Text],
) -> Result<(), AllocError>
    ensures { OnOk result (names.new ≡ few_names most names.old more.now) }
{
    let mut rest = more;
    while let Some((name, others)) = rest.split_first() {
        bind(alloc, names, most, name)?;
        rest = others;
    }
    Ok(())
}

fn bind(alloc: Global, names: &mut Items<Text>, most: usize, name: &Text) -> Result<(), AllocError>
    ensures { OnOk result (names.new ≡ few_names most names.old (name.now ∷ [])) }
{
    if names.len() > most || is_local(names.as_slice(), name) {
        return Ok(());
    }
    names.push(copy(alloc, name)?)
}
