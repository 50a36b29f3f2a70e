//! Which locations of a code are marked.

ghost use Rattle.std.specs.Prelude.{◌≡◌, length, None, IfOk};
ghost use Rattle.mon_code.specs.Checked as checked;
ghost use Rattle.mon_compile.specs.Marking as spec;

use crate::assembly::Instruction;
use mon_code::{Handler, Location};
use mon_events::Op;
use sqlite_items::Items;
use std::alloc::{AllocError, Global};

/// The locations of a code with their marks.
pub fn marked(
    alloc: Global,
    code: &[Instruction],
    locations: &[Location],
) -> Result<Items<Location>, AllocError>
    requires { length code.now ≡ length locations.now }
    ensures { IfOk result (λ marked. marked ≡ spec.marked_by (spec.is_reached code.now locations.now) 0 None locations.now) }
{
    let flags = targets(alloc, code, locations)?;
    mark_all(alloc, code, locations, flags.as_slice())
}

// Which indexes of a code are gone to by a jump or an exception.
fn targets(
    alloc: Global,
    code: &[Instruction],
    locations: &[Location],
) -> Result<Items<bool>, AllocError>
    requires { length code.now ≡ length locations.now }
    ensures same { IfOk result (λ flags. length flags ≡ length locations.now) }
    ensures flags { IfOk result (λ flags. spec.Flags code.now locations.now flags) }
{
    let mut flags = Items::from_vec(vec![in alloc; false; locations.len()]?);
    for (at, instruction) in code.iter().enumerate() {
        let location = locations[at];
        set_flag(&mut flags, jump(instruction.op, location.argument));
        set_flag(&mut flags, catch(location.handler));
    }
    Ok(flags)
}

fn jump(op: Op, argument: u32) -> Option<u32>
    ensures { result ≡ spec.jump_of op argument }
{
    match op {
        Op::JumpForward | Op::JumpBackward => Some(argument),
        Op::PopJumpIfFalse | Op::PopJumpIfTrue | Op::PopJumpIfDone => Some(argument),
        _ => None,
    }
}

fn catch(handler: Option<Handler>) -> Option<u32>
    ensures { result ≡ spec.catch_of handler }
{
    match handler {
        Some(handler) => Some(handler.to),
        None => None,
    }
}

#[tactic(auto, using(crate::proofs::Flags::flagged_none, crate::proofs::Flags::flagged_past, crate::proofs::Flags::flagged_set))]
fn set_flag(flags: &mut Items<bool>, to: Option<u32>)
    ensures { spec.Flagged flags.old flags.new to }
{
    if let Some(to) = to {
        if (to as usize) < flags.len() {
            flags.set(to as usize, true);
        }
    }
}

fn mark_all(
    alloc: Global,
    code: &[Instruction],
    locations: &[Location],
    flags: &[bool],
) -> Result<Items<Location>, AllocError>
    requires same { length flags.now ≡ length locations.now }
    requires flags { spec.Flags code.now locations.now flags.now }
    ensures { IfOk result (λ marked. marked ≡ spec.marked_by (spec.is_reached code.now locations.now) 0 None locations.now) }
{
    let mut marked = Items::new(alloc);
    let mut before = None;
    for (at, location) in locations.iter().enumerate() {
        let is_marked = mark(flags[at], before, location.line);
        marked.push(Location {
            is_marked,
            ..*location
        })?;
        before = Some(location.line);
    }
    Ok(marked)
}

// The mark of a location, behind one with the line `before`.
fn mark(is_target: bool, before: Option<Option<u32>>, line: Option<u32>) -> bool
    ensures { result ≡ spec.mark is_target before line }
{
    line.is_some() && (!follows_line(before, line) || is_target)
}

fn follows_line(before: Option<Option<u32>>, line: Option<u32>) -> bool
    ensures { result ≡ checked.follows_line before line }
{
    match (before, line) {
        (Some(Some(m)), Some(n)) => m == n,
        (Some(None), None) => true,
        _ => false,
    }
}
