//! The constants of a module, by recursive descent.

ghost use Rattle.std.specs.Prelude.{length};
ghost use Rattle.mon_parser.specs.Code.{Gives};
ghost use Rattle.mon_parser.specs.ItemReadings.{at_constants, further_from};
ghost use Rattle.mon_parser.specs.Statements.{read_constant};

use crate::block::{ConstantParts, GrownConstant};
use crate::cursor::{Cursor, Sign};
use crate::operand::texts;
use crate::refusal::Refusal;
use mon_trees::tree::Constant;
use std::alloc::Global;

/// A constant, or a tuple of those that are written with a comma.
#[cycle(constant)]
pub fn constants(
    alloc: Global,
    brackets: usize,
    cursor: &mut Cursor,
) -> Result<GrownConstant, Refusal>
    ensures { Gives (at_constants brackets cursor.old) result cursor.new }
{
    let first = constant(alloc, brackets, cursor)?;
    if !cursor.is_comma() {
        return Ok(first);
    }
    let mut parts = ConstantParts::new(alloc);
    parts.push(first)?;
    further_constants(alloc, parts, brackets, cursor)?.tuple()
}

/// Further constants, each after a comma, and maybe a comma at the end.
#[cycle(constant)]
fn further_constants(
    alloc: Global,
    mut parts: ConstantParts,
    brackets: usize,
    cursor: &mut Cursor,
) -> Result<ConstantParts, Refusal>
    ensures { Gives (further_from brackets parts (length cursor.old) cursor.old) result cursor.new }
{
    let turns = cursor.len();
    for _turn in 0..turns {
        if !cursor.take(Sign::Comma) {
            return Ok(parts);
        }
        if !cursor.starts_constant() {
            return Ok(parts);
        }
        let part = constant(alloc, brackets, cursor)?;
        parts.push(part)?;
    }
    Ok(parts)
}

/// A constant with fewer than so many brackets open at once.
#[cycle(constant)]
fn constant(alloc: Global, brackets: usize, cursor: &mut Cursor) -> Result<GrownConstant, Refusal>
    ensures { Gives (read_constant brackets cursor.old) result cursor.new }
{
    if brackets == 0 {
        return Err(Refusal::Syntax);
    }
    if let Some(single) = cursor.take_single() {
        return Ok(GrownConstant::leaf(Constant::Single(single)));
    }
    if let Some(value) = cursor.take_number() {
        return Ok(GrownConstant::leaf(Constant::Integer(value)));
    }
    if let Some(text) = cursor.take_text() {
        return Ok(GrownConstant::leaf(Constant::Text(texts(alloc, text, cursor)?)));
    }
    if cursor.take(Sign::Minus) {
        let value = cursor.expect_number()?;
        return Ok(GrownConstant::leaf(Constant::Integer(-value)));
    }
    cursor.expect(Sign::OpenRound)?;
    if cursor.take(Sign::CloseRound) {
        return Ok(GrownConstant::leaf(Constant::Empty));
    }
    let tree = constants(alloc, brackets - 1, cursor)?;
    cursor.expect(Sign::CloseRound)?;
    Ok(tree)
}
