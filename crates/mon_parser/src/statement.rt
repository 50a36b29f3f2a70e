//! Statements, by recursive descent.

ghost use Rattle.std.specs.Prelude.{[], length};
ghost use Rattle.mon_parser.specs.Code.{Gives};
ghost use Rattle.mon_parser.specs.Statements.{read_targets, read_parameters, read_as};
ghost use Rattle.mon_parser.specs.StatementReadings.{at_simple, at_returned, at_raised, at_assignment_or_value, at_augmented, at_assignment, at_line, at_statement, at_branch, at_while, at_for, at_try, at_other, at_elif, handlers_from, at_handler, at_bare_handler, at_last, at_body, at_block, block_line, statements_from, names_from};

use crate::block::{self, Block, GrownSimple, GrownStatement, Handlers, depth_of_targets};
use crate::cursor::{Cursor, Sign};
use crate::expression::{expression, expressions, right_side};
use crate::grown::deeper;
use crate::refusal::Refusal;
use mon_trees::Text;
use mon_trees::tree::{Simple, Targets};
use sqlite_items::Items;
use std::alloc::Global;

/// Further names, each after a comma, and maybe a comma at the end.
fn further_names(
    alloc: Global,
    mut names: Items<Text>,
    cursor: &mut Cursor,
) -> Result<Items<Text>, Refusal>
    ensures { Gives (names_from names (length cursor.old) cursor.old) result cursor.new }
{
    let turns = cursor.len();
    for _turn in 0..turns {
        if !cursor.take(Sign::Comma) {
            return Ok(names);
        }
        if !cursor.starts_name() {
            return Ok(names);
        }
        let name = cursor.expect_name(alloc)?;
        names.push(name)?;
    }
    Ok(names)
}

/// A name, or names that are written with a comma.
fn targets(alloc: Global, cursor: &mut Cursor) -> Result<Targets, Refusal>
    ensures { Gives (read_targets cursor.old) result cursor.new }
{
    let first = cursor.expect_name(alloc)?;
    if !cursor.is_comma() {
        return Ok(Targets::Name(first));
    }
    let mut names = Items::new(alloc);
    names.push(first)?;
    Ok(Targets::Tuple(further_names(alloc, names, cursor)?))
}

/// The parameters of a `def`, between its brackets.
pub fn parameters(alloc: Global, cursor: &mut Cursor) -> Result<Items<Text>, Refusal>
    ensures { Gives (read_parameters cursor.old) result cursor.new }
{
    let mut names = Items::new(alloc);
    if !cursor.starts_name() {
        return Ok(names);
    }
    let first = cursor.expect_name(alloc)?;
    names.push(first)?;
    further_names(alloc, names, cursor)
}

/// A statement without a block.
fn simple(
    alloc: Global,
    brackets: usize,
    nodes: u32,
    cursor: &mut Cursor,
) -> Result<GrownSimple, Refusal>
    ensures { Gives (at_simple brackets nodes cursor.old) result cursor.new }
{
    if cursor.take(Sign::Pass) {
        return Ok(GrownSimple::new(Simple::Pass, 0));
    }
    if cursor.take(Sign::Break) {
        return Ok(GrownSimple::new(Simple::Break, 0));
    }
    if cursor.take(Sign::Continue) {
        return Ok(GrownSimple::new(Simple::Continue, 0));
    }
    if cursor.take(Sign::Return) {
        return returned(alloc, brackets, nodes, cursor);
    }
    if cursor.take(Sign::Raise) {
        return raised(alloc, brackets, nodes, cursor);
    }
    assignment_or_value(alloc, brackets, nodes, cursor)
}

/// Behind `return`.
fn returned(
    alloc: Global,
    brackets: usize,
    nodes: u32,
    cursor: &mut Cursor,
) -> Result<GrownSimple, Refusal>
    ensures { Gives (at_returned brackets nodes cursor.old) result cursor.new }
{
    if !cursor.starts() {
        return Ok(GrownSimple::new(Simple::Return(None), 0));
    }
    let value = expressions(alloc, brackets, nodes, cursor)?;
    let below = value.depth();
    Ok(GrownSimple::new(Simple::Return(Some(value.into_tree())), below))
}

/// Behind `raise`.
fn raised(
    alloc: Global,
    brackets: usize,
    nodes: u32,
    cursor: &mut Cursor,
) -> Result<GrownSimple, Refusal>
    ensures { Gives (at_raised brackets nodes cursor.old) result cursor.new }
{
    if !cursor.starts() {
        return Ok(GrownSimple::new(Simple::Raise(None), 0));
    }
    let value = expression(alloc, brackets, nodes, cursor)?;
    let below = value.depth();
    Ok(GrownSimple::new(Simple::Raise(Some(value.into_tree())), below))
}

/// An assignment, or a right side alone. What stands before a sign of assignment is read twice: as a
/// right side, and as what is assigned to.
fn assignment_or_value(
    alloc: Global,
    brackets: usize,
    nodes: u32,
    cursor: &mut Cursor,
) -> Result<GrownSimple, Refusal>
    ensures { Gives (at_assignment_or_value brackets nodes cursor.old) result cursor.new }
{
    let start = cursor.copy();
    let value = right_side(alloc, brackets, nodes, cursor)?;
    if let Some(_) = cursor.take_augmented() {
        *cursor = start;
        return augmented(alloc, brackets, nodes, cursor);
    }
    if cursor.take(Sign::Assign) {
        *cursor = start;
        return assignment(alloc, brackets, nodes, cursor);
    }
    let below = value.depth();
    Ok(GrownSimple::new(Simple::Expression(value.into_tree()), below))
}

fn augmented(
    alloc: Global,
    brackets: usize,
    nodes: u32,
    cursor: &mut Cursor,
) -> Result<GrownSimple, Refusal>
    ensures { Gives (at_augmented brackets nodes cursor.old) result cursor.new }
{
    let name = cursor.expect_name(alloc)?;
    let op = cursor.expect_augmented()?;
    let value = right_side(alloc, brackets, nodes, cursor)?;
    let below = value.depth();
    Ok(GrownSimple::new(Simple::Augmented(name, op, value.into_tree()), below))
}

fn assignment(
    alloc: Global,
    brackets: usize,
    nodes: u32,
    cursor: &mut Cursor,
) -> Result<GrownSimple, Refusal>
    ensures { Gives (at_assignment brackets nodes cursor.old) result cursor.new }
{
    let to = targets(alloc, cursor)?;
    cursor.expect(Sign::Assign)?;
    let value = right_side(alloc, brackets, nodes, cursor)?;
    let below = deeper(depth_of_targets(&to), value.depth());
    Ok(GrownSimple::new(Simple::Assign(to, value.into_tree()), below))
}

/// A simple statement and the end of its line.
fn simple_line(
    alloc: Global,
    brackets: usize,
    nodes: u32,
    cursor: &mut Cursor,
) -> Result<GrownStatement, Refusal>
    ensures { Gives (at_line brackets nodes cursor.old) result cursor.new }
{
    if nodes == 0 {
        return Err(Refusal::Syntax);
    }
    let line = cursor.line();
    let statement = simple(alloc, brackets, nodes - 1, cursor)?;
    cursor.expect(Sign::Newline)?;
    statement.on_line(line)
}

/// A block of one simple statement.
fn block_on_line(
    alloc: Global,
    brackets: usize,
    nodes: u32,
    cursor: &mut Cursor,
) -> Result<Block, Refusal>
    ensures { Gives (block_line brackets nodes cursor.old) result cursor.new }
{
    let statement = simple_line(alloc, brackets, nodes, cursor)?;
    Ok(Block::of_one(alloc, statement)?)
}

/// A name after `as`, if there is one.
fn name_after_as(alloc: Global, cursor: &mut Cursor) -> Result<Option<Text>, Refusal>
    ensures { Gives (read_as cursor.old) result cursor.new }
{
    if !cursor.take(Sign::As) {
        return Ok(None);
    }
    let name = cursor.expect_name(alloc)?;
    Ok(Some(name))
}

/// A statement.
#[cycle(statement)]
fn statement(
    alloc: Global,
    brackets: usize,
    nodes: u32,
    cursor: &mut Cursor,
) -> Result<GrownStatement, Refusal>
    ensures { Gives (at_statement brackets nodes cursor.old) result cursor.new }
{
    if nodes == 0 {
        return Err(Refusal::Syntax);
    }
    let line = cursor.line();
    if cursor.take(Sign::If) {
        return branch(alloc, brackets, nodes - 1, line, cursor);
    }
    if cursor.take(Sign::While) {
        return while_loop(alloc, brackets, nodes - 1, line, cursor);
    }
    if cursor.take(Sign::For) {
        return for_loop(alloc, brackets, nodes - 1, line, cursor);
    }
    if cursor.take(Sign::Try) {
        return try_block(alloc, brackets, nodes - 1, line, cursor);
    }
    simple_line(alloc, brackets, nodes, cursor)
}

/// Behind the `if` or `elif` of this line.
#[cycle(statement)]
fn branch(
    alloc: Global,
    brackets: usize,
    nodes: u32,
    line: u32,
    cursor: &mut Cursor,
) -> Result<GrownStatement, Refusal>
    ensures { Gives (at_branch brackets nodes line cursor.old) result cursor.new }
{
    let test = expression(alloc, brackets, nodes, cursor)?;
    let body = body(alloc, brackets, nodes, cursor)?;
    let other = other(alloc, brackets, nodes, cursor)?;
    block::branch(line, test, body, other)
}

/// Behind the `while` of this line.
#[cycle(statement)]
fn while_loop(
    alloc: Global,
    brackets: usize,
    nodes: u32,
    line: u32,
    cursor: &mut Cursor,
) -> Result<GrownStatement, Refusal>
    ensures { Gives (at_while brackets nodes line cursor.old) result cursor.new }
{
    let test = expression(alloc, brackets, nodes, cursor)?;
    let body = body(alloc, brackets, nodes, cursor)?;
    block::while_loop(line, test, body)
}

/// Behind the `for` of this line.
#[cycle(statement)]
fn for_loop(
    alloc: Global,
    brackets: usize,
    nodes: u32,
    line: u32,
    cursor: &mut Cursor,
) -> Result<GrownStatement, Refusal>
    ensures { Gives (at_for brackets nodes line cursor.old) result cursor.new }
{
    let to = targets(alloc, cursor)?;
    cursor.expect(Sign::In)?;
    let over = expressions(alloc, brackets, nodes, cursor)?;
    let body = body(alloc, brackets, nodes, cursor)?;
    block::for_loop(line, to, over, body)
}

/// Behind the `try` of this line.
#[cycle(statement)]
fn try_block(
    alloc: Global,
    brackets: usize,
    nodes: u32,
    line: u32,
    cursor: &mut Cursor,
) -> Result<GrownStatement, Refusal>
    ensures { Gives (at_try brackets nodes line cursor.old) result cursor.new }
{
    let body = body(alloc, brackets, nodes, cursor)?;
    let handlers = handlers(alloc, brackets, nodes, cursor)?;
    let last = last(alloc, brackets, nodes, handlers.is_empty(), cursor)?;
    block::try_block(line, body, handlers, last)
}

/// The rest of an `if`: an `elif`, an `else` or nothing.
#[cycle(statement)]
fn other(alloc: Global, brackets: usize, nodes: u32, cursor: &mut Cursor) -> Result<Block, Refusal>
    ensures { Gives (at_other brackets nodes cursor.old) result cursor.new }
{
    let line = cursor.line();
    if cursor.take(Sign::Elif) {
        return elif(alloc, brackets, nodes, line, cursor);
    }
    if cursor.take(Sign::Else) {
        return body(alloc, brackets, nodes, cursor);
    }
    Ok(Block::new(alloc))
}

/// Behind the `elif` of this line, as a block.
#[cycle(statement)]
fn elif(
    alloc: Global,
    brackets: usize,
    nodes: u32,
    line: u32,
    cursor: &mut Cursor,
) -> Result<Block, Refusal>
    ensures { Gives (at_elif brackets nodes line cursor.old) result cursor.new }
{
    if nodes == 0 {
        return Err(Refusal::Syntax);
    }
    let statement = branch(alloc, brackets, nodes - 1, line, cursor)?;
    Ok(Block::of_one(alloc, statement)?)
}

/// Handlers. Behind a bare one stands no other.
#[cycle(statement)]
fn handlers(
    alloc: Global,
    brackets: usize,
    nodes: u32,
    cursor: &mut Cursor,
) -> Result<Handlers, Refusal>
    ensures { Gives (handlers_from brackets nodes [] (length cursor.old) cursor.old) result cursor.new }
{
    let mut handlers = Handlers::new(alloc);
    let turns = cursor.len();
    for _turn in 0..turns {
        let line = cursor.line();
        if !cursor.take(Sign::Except) {
            return Ok(handlers);
        }
        if cursor.take(Sign::Colon) {
            return bare_handler(alloc, brackets, nodes, line, handlers, cursor);
        }
        handlers = handler(alloc, brackets, nodes, line, handlers, cursor)?;
    }
    Ok(handlers)
}

/// These handlers and one of a class, behind the `except` of this line.
#[cycle(statement)]
fn handler(
    alloc: Global,
    brackets: usize,
    nodes: u32,
    line: u32,
    mut handlers: Handlers,
    cursor: &mut Cursor,
) -> Result<Handlers, Refusal>
    ensures { Gives (at_handler brackets nodes line handlers cursor.old) result cursor.new }
{
    let class = expression(alloc, brackets, nodes, cursor)?;
    let name = name_after_as(alloc, cursor)?;
    let body = body(alloc, brackets, nodes, cursor)?;
    handlers.push(line, class, name, body)?;
    Ok(handlers)
}

/// These handlers and a bare one, behind the colon of its line.
#[cycle(statement)]
fn bare_handler(
    alloc: Global,
    brackets: usize,
    nodes: u32,
    line: u32,
    mut handlers: Handlers,
    cursor: &mut Cursor,
) -> Result<Handlers, Refusal>
    ensures { Gives (at_bare_handler brackets nodes line handlers cursor.old) result cursor.new }
{
    let body = block_of(alloc, brackets, nodes, cursor)?;
    handlers.push_bare(line, body)?;
    Ok(handlers)
}

/// The block behind `finally`, which there has to be if there is no handler.
#[cycle(statement)]
fn last(
    alloc: Global,
    brackets: usize,
    nodes: u32,
    is_needed: bool,
    cursor: &mut Cursor,
) -> Result<Block, Refusal>
    ensures { Gives (at_last brackets nodes is_needed cursor.old) result cursor.new }
{
    if cursor.take(Sign::Finally) {
        return body(alloc, brackets, nodes, cursor);
    }
    if is_needed {
        return Err(Refusal::Syntax);
    }
    Ok(Block::new(alloc))
}

/// A colon and a block.
#[cycle(statement)]
pub fn body(
    alloc: Global,
    brackets: usize,
    nodes: u32,
    cursor: &mut Cursor,
) -> Result<Block, Refusal>
    ensures { Gives (at_body brackets nodes cursor.old) result cursor.new }
{
    cursor.expect(Sign::Colon)?;
    block_of(alloc, brackets, nodes, cursor)
}

/// A simple statement on the same line, or indented statements.
#[cycle(statement)]
fn block_of(
    alloc: Global,
    brackets: usize,
    nodes: u32,
    cursor: &mut Cursor,
) -> Result<Block, Refusal>
    ensures { Gives (at_block brackets nodes cursor.old) result cursor.new }
{
    if !cursor.take(Sign::Newline) {
        return block_on_line(alloc, brackets, nodes, cursor);
    }
    cursor.expect(Sign::Indent)?;
    statements(alloc, brackets, nodes, cursor)
}

/// Statements up to the end of their indentation.
#[cycle(statement)]
fn statements(
    alloc: Global,
    brackets: usize,
    nodes: u32,
    cursor: &mut Cursor,
) -> Result<Block, Refusal>
    ensures { Gives (statements_from brackets nodes [] (length cursor.old) cursor.old) result cursor.new }
{
    let mut block = Block::new(alloc);
    let turns = cursor.len();
    for _turn in 0..turns {
        let next = statement(alloc, brackets, nodes, cursor)?;
        block.push(next)?;
        if cursor.take(Sign::Dedent) {
            return Ok(block);
        }
    }
    Err(Refusal::Syntax)
}
