//! Items, and the limit on brackets.

ghost use Rattle.std.specs.Prelude.{◌≡◌, ◌<◌, ◌^◌, max};
ghost use Rattle.mon_parser.specs.Code.{Gives};
ghost use Rattle.mon_parser.specs.ItemReadings.{at_item, at_def};
ghost use Rattle.mon_parser.specs.Tokens.{most_open, open_after};

use crate::constant::constants;
use crate::cursor::{Cursor, Sign};
use crate::grown::MOST_NODES;
use crate::operand::texts;
use crate::refusal::Refusal;
use crate::statement::{body, parameters};
use mon_lexer::{Kind, Operator, Token};
use mon_trees::tree::{Function, ModuleItem};
use sqlite_items::Items;
use std::alloc::Global;

/// The tree of an item, with fewer than so many brackets open at once.
pub fn item(alloc: Global, brackets: usize, cursor: &mut Cursor) -> Result<ModuleItem, Refusal>
    ensures { Gives (at_item brackets cursor.old) result cursor.new }
{
    let line = cursor.line();
    if cursor.take(Sign::Def) {
        return function(alloc, brackets, line, cursor);
    }
    if let Some(name) = cursor.take_name() {
        let name = Items::from_slice(alloc, name.as_slice())?;
        cursor.expect(Sign::Assign)?;
        let value = constants(alloc, brackets, cursor)?;
        cursor.expect(Sign::Newline)?;
        if value.depth() < MOST_NODES {
            return Ok(ModuleItem::Constant(line, name, value.into_tree()));
        }
        return Err(Refusal::Syntax);
    }
    let text = match cursor.take_text() {
        None => return Err(Refusal::Syntax),
        Some(text) => texts(alloc, text, cursor)?,
    };
    cursor.expect(Sign::Newline)?;
    Ok(ModuleItem::Text(text))
}

/// Behind the `def` of this line.
fn function(
    alloc: Global,
    brackets: usize,
    line: u32,
    cursor: &mut Cursor,
) -> Result<ModuleItem, Refusal>
    ensures { Gives (at_def brackets line cursor.old) result cursor.new }
{
    let name = cursor.expect_name(alloc)?;
    cursor.expect(Sign::OpenRound)?;
    let parameters = parameters(alloc, cursor)?;
    cursor.expect(Sign::CloseRound)?;
    let body = body(alloc, brackets, 255, cursor)?;
    if body.depth() < MOST_NODES {
        return Ok(ModuleItem::Function(Function {
            line,
            name,
            parameters,
            body: body.into_items(),
        }));
    }
    Err(Refusal::Syntax)
}

/// How many brackets are open at once, at most.
pub fn most_open(tokens: &[Token]) -> usize
    ensures { result ≡ most_open 0 tokens.now }
{
    let mut depth = 0;
    let mut most = 0;
    for token in tokens {
        depth = open_after(depth, &token.kind);
        most = greater(most, depth);
    }
    most
}

/// How many brackets are open behind a token of this kind.
fn open_after(depth: usize, kind: &Kind) -> usize
    requires { depth < 2 ^ 63 }
    ensures { result ≡ open_after depth kind.now }
{
    match kind {
        Kind::Operator(Operator::OpenRound) => depth + 1,
        Kind::Operator(Operator::OpenSquare) => depth + 1,
        Kind::Operator(Operator::CloseRound) => depth.saturating_sub(1),
        Kind::Operator(Operator::CloseSquare) => depth.saturating_sub(1),
        _ => depth,
    }
}

fn greater(a: usize, b: usize) -> usize
    ensures { result ≡ max a b }
{
    if a < b { b } else { a }
}
