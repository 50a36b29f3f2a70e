mod expressions;
mod faults;
mod last_parts;
mod leaving;
mod limits;
mod outline;
mod places;
mod show;
mod statements;

use mon_code::Program;
use mon_compile::compile;
use mon_lexer::items;
use mon_parser::parse;
use mon_trees::tree::Module;
use std::alloc::Global;
use std::test::Fail;

fn module_of(alloc: Global, text: &[u8]) -> Result<Module, Fail> {
    let items = items(alloc, text)?;
    Ok(parse(alloc, items.as_slice())?)
}

fn compiled(alloc: Global, text: &[u8]) -> Result<(Program, Vec<u8>), Fail> {
    let module = module_of(alloc, text)?;
    Ok(compile(alloc, &module)?)
}

/// The fault of a module as it is printed, or `built`.
fn verdict(alloc: Global, text: &[u8]) -> Result<String, Fail> {
    let module = module_of(alloc, text)?;
    match compile(alloc, &module) {
        Ok(_) => Ok(format!(in alloc; "built")?),
        Err(fault) => Ok(format!(in alloc; "{fault}")?),
    }
}

/// A text with so many pieces in the middle.
fn filled(
    alloc: Global,
    before: &str,
    piece: &str,
    count: usize,
    behind: &str,
) -> Result<String, Fail> {
    let mut text = String::new(alloc);
    text.push_str(before)?;
    for _turn in 0..count {
        text.push_str(piece)?;
    }
    text.push_str(behind)?;
    Ok(text)
}
