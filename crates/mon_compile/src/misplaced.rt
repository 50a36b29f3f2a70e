//! What stands where it may not: `break` and `continue` outside a loop, and too many locals.

ghost use Rattle.std.specs.Prelude.{◌≡◌, [], ◌∷◌, map, false, IfOk};
ghost use Rattle.mon_compile.specs.Clauses.{clause_loose};
ghost use Rattle.mon_compile.specs.Faults as spec;
ghost use Rattle.mon_compile.specs.Functions.{joined};
ghost use Rattle.mon_compile.specs.Modules.{functions_of};

use crate::bindings::bindings;
use crate::earlier::earlier;
use mon_trees::tree::{Function, Handler, ModuleItem, Simple, Statement};
use std::alloc::{AllocError, Global};

/// The most locals that a function may have.
const MOST_LOCALS: usize = 255;

/// The least line of a `break` or `continue` outside a loop, or of a `def` with too many locals.
pub fn misplaced(alloc: Global, items: &[ModuleItem]) -> Result<Option<u32>, AllocError>
    ensures { IfOk result (λ line. line ≡ spec.least (joined (map spec.misplaced_in (functions_of items.now)))) }
{
    let mut line = None;
    for item in items {
        line = earlier(line, misplaced_in_item(alloc, item)?);
    }
    Ok(line)
}

fn misplaced_in_item(alloc: Global, item: &ModuleItem) -> Result<Option<u32>, AllocError>
    ensures { IfOk result (λ line. line ≡ spec.least (joined (map spec.misplaced_in (functions_of (item.now ∷ []))))) }
{
    match item {
        ModuleItem::Function(function) => misplaced_in(alloc, function),
        _ => Ok(None),
    }
}

fn misplaced_in(alloc: Global, function: &Function) -> Result<Option<u32>, AllocError>
    ensures { IfOk result (λ line. line ≡ spec.least (spec.misplaced_in function.now)) }
{
    let locals = bindings(alloc, function, MOST_LOCALS)?;
    let loose = loose_in_block(function.body.as_slice(), false);
    if locals.len() <= MOST_LOCALS {
        Ok(loose)
    } else {
        Ok(earlier(Some(function.line), loose))
    }
}

#[cycle(loose_in_block)]
fn loose_in_block(body: &[Statement], inside: bool) -> Option<u32>
    ensures { result ≡ spec.least (spec.all_loose (map spec.loose_of body.now) inside) }
{
    let mut line = None;
    for statement in body {
        line = earlier(line, loose_in_statement(statement, inside));
    }
    line
}

#[cycle(loose_in_block)]
fn loose_in_handlers(handlers: &[Handler], inside: bool) -> Option<u32>
    ensures { result ≡ spec.least (spec.all_loose (map clause_loose handlers.now) inside) }
{
    let mut line = None;
    for handler in handlers {
        line = earlier(line, loose_in_handler(handler, inside));
    }
    line
}

#[cycle(loose_in_block)]
fn loose_in_handler(handler: &Handler, inside: bool) -> Option<u32>
    ensures { result ≡ spec.least (clause_loose handler.now inside) }
{
    loose_in_block(handler.body.as_slice(), inside)
}

#[cycle(loose_in_block)]
fn loose_in_statement(statement: &Statement, inside: bool) -> Option<u32>
    ensures { result ≡ spec.least (spec.loose_of statement.now inside) }
{
    match statement {
        Statement::Simple(line, simple) => loose_in_simple(*line, simple, inside),
        Statement::If(_, _, body, other) => {
            let line = loose_in_block(body.as_slice(), inside);
            earlier(line, loose_in_block(other.as_slice(), inside))
        }
        Statement::While(_, _, body) => loose_in_block(body.as_slice(), true),
        Statement::For(_, _, _, body) => loose_in_block(body.as_slice(), true),
        Statement::Try(_, body, handlers, last) => {
            let line = loose_in_block(body.as_slice(), inside);
            let line = earlier(line, loose_in_handlers(handlers.as_slice(), inside));
            earlier(line, loose_in_block(last.as_slice(), inside))
        }
    }
}

fn loose_in_simple(line: u32, simple: &Simple, inside: bool) -> Option<u32>
    ensures { result ≡ spec.least (spec.loose_simple line simple.now inside) }
{
    match simple {
        Simple::Break | Simple::Continue if !inside => Some(line),
        _ => None,
    }
}
