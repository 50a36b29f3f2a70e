//! Expressions, by recursive descent.
//!
//! `brackets` says how many brackets may still be opened, and `nodes` how deep the tree may still get.

ghost use Rattle.mon_parser.specs.Code.{Gives};
ghost use Rattle.mon_parser.specs.Readings.{at_level, below_level, at_negation, at_unary, at_comparison, behind_comparison, at_postfix, at_suffix, at_arguments, further_from, at_expressions, at_right_side, at_atom, at_group};
ghost use Rattle.mon_parser.specs.Reader.{read_expr};

use crate::cursor::{Cursor, Sign};
use crate::grown::{
    Grown, MOST_NODES, Parts, compare, conditional, joined, negative, not, tuple, yielded,
};
use crate::levels::{Level, Suffix};
use crate::operand::{
    asked, comparison_operator, end_ask, end_call, end_subscript, identity, leaf,
};
use crate::refusal::Refusal;
use mon_trees::tree::{Comparison, Expression};
use std::alloc::Global;

/// An expression.
#[cycle(expression)]
pub fn expression(
    alloc: Global,
    brackets: usize,
    nodes: u32,
    cursor: &mut Cursor,
) -> Result<Grown, Refusal>
    ensures { Gives (read_expr brackets nodes cursor.old) result cursor.new }
{
    if brackets == 0 {
        return Err(Refusal::Syntax);
    }
    if nodes == 0 {
        return Err(Refusal::Syntax);
    }
    let value = left(alloc, Level::Or, brackets - 1, nodes, cursor)?;
    if !cursor.take(Sign::If) {
        return Ok(value);
    }
    let test = left(alloc, Level::Or, brackets - 1, nodes, cursor)?;
    cursor.expect(Sign::Else)?;
    let other = expression(alloc, brackets, nodes - 1, cursor)?;
    conditional(alloc, value, test, other)
}

/// A level whose operators group to the left. Each turn makes a node over the last, so as many turns as nodes are enough.
#[cycle(expression)]
fn left(
    alloc: Global,
    level: Level,
    brackets: usize,
    nodes: u32,
    cursor: &mut Cursor,
) -> Result<Grown, Refusal>
    ensures { Gives (at_level level brackets nodes cursor.old) result cursor.new }
{
    let mut tree = lower(alloc, level, brackets, nodes, cursor)?;
    for _turn in 0..MOST_NODES {
        match cursor.take_op(level) {
            None => return Ok(tree),
            Some(op) => {
                let right = lower(alloc, level, brackets, nodes, cursor)?;
                tree = joined(alloc, op, tree, right)?;
            }
        }
    }
    Ok(tree)
}

/// The level below such a level.
#[cycle(expression)]
fn lower(
    alloc: Global,
    level: Level,
    brackets: usize,
    nodes: u32,
    cursor: &mut Cursor,
) -> Result<Grown, Refusal>
    ensures { Gives (below_level level brackets nodes cursor.old) result cursor.new }
{
    match level {
        Level::Or => left(alloc, Level::And, brackets, nodes, cursor),
        Level::And => negation(alloc, brackets, nodes, cursor),
        Level::Sum => left(alloc, Level::Term, brackets, nodes, cursor),
        Level::Term => unary(alloc, brackets, nodes, cursor),
    }
}

/// A comparison, maybe behind `not`.
#[cycle(expression)]
fn negation(
    alloc: Global,
    brackets: usize,
    nodes: u32,
    cursor: &mut Cursor,
) -> Result<Grown, Refusal>
    ensures { Gives (at_negation brackets nodes cursor.old) result cursor.new }
{
    if nodes == 0 {
        return Err(Refusal::Syntax);
    }
    if !cursor.take(Sign::Not) {
        return comparison(alloc, brackets, nodes, cursor);
    }
    let operand = negation(alloc, brackets, nodes - 1, cursor)?;
    not(alloc, operand)
}

/// An operand, maybe behind minus signs.
#[cycle(expression)]
fn unary(alloc: Global, brackets: usize, nodes: u32, cursor: &mut Cursor) -> Result<Grown, Refusal>
    ensures { Gives (at_unary brackets nodes cursor.old) result cursor.new }
{
    if nodes == 0 {
        return Err(Refusal::Syntax);
    }
    if !cursor.take(Sign::Minus) {
        return postfix(alloc, brackets, nodes, cursor);
    }
    let operand = unary(alloc, brackets, nodes - 1, cursor)?;
    negative(alloc, operand)
}

/// A comparison, or a sum alone.
#[cycle(expression)]
fn comparison(
    alloc: Global,
    brackets: usize,
    nodes: u32,
    cursor: &mut Cursor,
) -> Result<Grown, Refusal>
    ensures { Gives (at_comparison brackets nodes cursor.old) result cursor.new }
{
    let first = left(alloc, Level::Sum, brackets, nodes, cursor)?;
    if cursor.take(Sign::Is) {
        return identity(alloc, first, cursor);
    }
    let found = comparison_operator(cursor)?;
    match found {
        None => Ok(first),
        Some(op) => compared(alloc, first, op, brackets, nodes, cursor),
    }
}

/// Behind an operator of comparison.
#[cycle(expression)]
fn compared(
    alloc: Global,
    first: Grown,
    op: Comparison,
    brackets: usize,
    nodes: u32,
    cursor: &mut Cursor,
) -> Result<Grown, Refusal>
    ensures { Gives (behind_comparison brackets nodes first op cursor.old) result cursor.new }
{
    let last = left(alloc, Level::Sum, brackets, nodes, cursor)?;
    compare(alloc, op, first, last)
}

/// An atom with what stands behind it. Each turn makes a node over the last, so as many turns as nodes are enough.
#[cycle(expression)]
fn postfix(
    alloc: Global,
    brackets: usize,
    nodes: u32,
    cursor: &mut Cursor,
) -> Result<Grown, Refusal>
    ensures { Gives (at_postfix brackets nodes cursor.old) result cursor.new }
{
    let mut tree = atom(alloc, brackets, nodes, cursor)?;
    for _turn in 0..MOST_NODES {
        match cursor.take_suffix() {
            None => return Ok(tree),
            Some(found) => tree = suffix(alloc, tree, found, brackets, nodes, cursor)?,
        }
    }
    Ok(tree)
}

/// What stands behind this tree, from behind its first token.
#[cycle(expression)]
fn suffix(
    alloc: Global,
    tree: Grown,
    found: Suffix,
    brackets: usize,
    nodes: u32,
    cursor: &mut Cursor,
) -> Result<Grown, Refusal>
    ensures { Gives (at_suffix brackets nodes found tree cursor.old) result cursor.new }
{
    match found {
        Suffix::Call => {
            let parts = arguments(alloc, brackets, nodes, cursor)?;
            end_call(alloc, tree, parts, cursor)
        }
        Suffix::Subscript => {
            let index = expression(alloc, brackets, nodes, cursor)?;
            end_subscript(alloc, tree, index, cursor)
        }
        Suffix::Ask => {
            let method = asked(cursor)?;
            let parts = arguments(alloc, brackets, nodes, cursor)?;
            end_ask(alloc, tree, method, parts, cursor)
        }
    }
}

#[cycle(expression)]
fn arguments(
    alloc: Global,
    brackets: usize,
    nodes: u32,
    cursor: &mut Cursor,
) -> Result<Parts, Refusal>
    ensures { Gives (at_arguments brackets nodes cursor.old) result cursor.new }
{
    let mut parts = Parts::new(alloc);
    if !cursor.starts() {
        return Ok(parts);
    }
    let first = expression(alloc, brackets, nodes, cursor)?;
    parts.push(first)?;
    let turns = cursor.len();
    further(alloc, parts, turns, brackets, nodes, cursor)
}

/// Further expressions, each after a comma, and maybe a comma at the end.
#[cycle(expression)]
fn further(
    alloc: Global,
    mut parts: Parts,
    turns: usize,
    brackets: usize,
    nodes: u32,
    cursor: &mut Cursor,
) -> Result<Parts, Refusal>
    ensures { Gives (further_from brackets nodes parts turns cursor.old) result cursor.new }
{
    for _turn in 0..turns {
        if !cursor.take(Sign::Comma) {
            return Ok(parts);
        }
        if !cursor.starts() {
            return Ok(parts);
        }
        let part = expression(alloc, brackets, nodes, cursor)?;
        parts.push(part)?;
    }
    Ok(parts)
}

/// An expression, or a tuple of those that are written with a comma.
#[cycle(expression)]
pub fn expressions(
    alloc: Global,
    brackets: usize,
    nodes: u32,
    cursor: &mut Cursor,
) -> Result<Grown, Refusal>
    ensures { Gives (at_expressions brackets nodes cursor.old) result cursor.new }
{
    let first = expression(alloc, brackets, nodes, cursor)?;
    if !cursor.is_comma() {
        return Ok(first);
    }
    let mut parts = Parts::new(alloc);
    parts.push(first)?;
    let turns = cursor.len();
    let parts = further(alloc, parts, turns, brackets, nodes, cursor)?;
    tuple(parts)
}

/// What may stand on the right of an assignment: expressions, or a `yield`.
#[cycle(expression)]
pub fn right_side(
    alloc: Global,
    brackets: usize,
    nodes: u32,
    cursor: &mut Cursor,
) -> Result<Grown, Refusal>
    ensures { Gives (at_right_side brackets nodes cursor.old) result cursor.new }
{
    match cursor.take_yield() {
        None => expressions(alloc, brackets, nodes, cursor),
        Some(line) => {
            if !cursor.starts() {
                return Ok(Grown::leaf(Expression::Yield(line, None)));
            }
            let value = expressions(alloc, brackets, nodes, cursor)?;
            yielded(alloc, line, value)
        }
    }
}

#[cycle(expression)]
fn atom(alloc: Global, brackets: usize, nodes: u32, cursor: &mut Cursor) -> Result<Grown, Refusal>
    ensures { Gives (at_atom brackets nodes cursor.old) result cursor.new }
{
    let found = leaf(alloc, cursor)?;
    if let Some(tree) = found {
        return Ok(tree);
    }
    cursor.expect(Sign::OpenRound)?;
    group(alloc, brackets, nodes, cursor)
}

/// Behind an open bracket.
#[cycle(expression)]
fn group(alloc: Global, brackets: usize, nodes: u32, cursor: &mut Cursor) -> Result<Grown, Refusal>
    ensures { Gives (at_group brackets nodes cursor.old) result cursor.new }
{
    if cursor.take(Sign::CloseRound) {
        return Ok(Grown::leaf(Expression::Empty));
    }
    let tree = right_side(alloc, brackets, nodes, cursor)?;
    cursor.expect(Sign::CloseRound)?;
    Ok(tree)
}
