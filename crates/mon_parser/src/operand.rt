//! The parts of expressions that hold no further expression.

ghost use Rattle.std.specs.Prelude.{◌≡◌, Some, None, IfOk, MatchOption, MatchResult};
ghost use Rattle.mon_parser.specs.declared.refusal.Refusal.TheVariants.{Memory};
ghost use Rattle.mon_parser.specs.Code.{Gives};
ghost use Rattle.mon_parser.specs.Reader.{more_texts};
ghost use Rattle.mon_parser.specs.Readings.{leaf_at, identity_at, comparison_at, asked_at, call_ends, subscript_ends, ask_ends};

use crate::cursor::{Cursor, Sign};
use crate::grown::{Grown, Parts, ask, call, is, is_not, subscript};
use crate::refusal::Refusal;
use mon_trees::Text;
use mon_trees::tree::{Comparison, Expression, Method};
use sqlite_items::Items;
use std::alloc::{AllocError, Global};

/// An atom without brackets, if one comes next.
pub fn leaf(alloc: Global, cursor: &mut Cursor) -> Result<Option<Grown>, Refusal>
    ensures { MatchResult result
        (λ found. MatchOption found ((leaf_at cursor.old ≡ None) × (cursor.new ≡ cursor.old)) (λ tree. leaf_at cursor.old ≡ Some (tree, cursor.new)))
        (λ f. f ≡ Memory) }
{
    if let Some(single) = cursor.take_single() {
        return Ok(Some(Grown::leaf(Expression::Single(single))));
    }
    if let Some(value) = cursor.take_number() {
        return Ok(Some(Grown::leaf(Expression::Integer(value))));
    }
    if let Some(name) = cursor.take_name() {
        let name = copied(alloc, name)?;
        return Ok(Some(Grown::leaf(Expression::Name(name))));
    }
    match cursor.take_text() {
        None => Ok(None),
        Some(text) => {
            let joined = texts(alloc, text, cursor)?;
            Ok(Some(Grown::leaf(Expression::Text(joined))))
        }
    }
}

fn copied(alloc: Global, text: &Text) -> Result<Text, AllocError>
    ensures { IfOk result (λ copy. copy ≡ text.now) }
{
    Items::from_slice(alloc, text.as_slice())
}

/// The texts that go on with this one, joined.
#[tactic(auto, using(std::proofs::lemmas::Grind::common_steps, crate::proofs::Steps::texts_none, crate::proofs::Steps::texts_some, crate::proofs::Steps::next_shorter))]
pub fn texts(alloc: Global, first: &Text, cursor: &mut Cursor) -> Result<Text, AllocError>
    ensures { IfOk result (λ text. more_texts first.now cursor.old ≡ Some (text, cursor.new)) }
{
    let mut joined = Items::from_slice(alloc, first.as_slice())?;
    while let Some(more) = cursor.take_text() {
        joined.append(Items::from_slice(alloc, more.as_slice())?)?;
    }
    Ok(joined)
}

/// Behind `is`.
pub fn identity(alloc: Global, first: Grown, cursor: &mut Cursor) -> Result<Grown, Refusal>
    ensures { Gives (identity_at first cursor.old) result cursor.new }
{
    if cursor.take(Sign::Not) {
        let single = cursor.expect_single()?;
        return is_not(alloc, first, single);
    }
    let single = cursor.expect_single()?;
    is(alloc, first, single)
}

/// An operator of comparison, if one comes next.
pub fn comparison_operator(cursor: &mut Cursor) -> Result<Option<Comparison>, Refusal>
    ensures { Gives (comparison_at cursor.old) result cursor.new }
{
    if cursor.take(Sign::Not) {
        cursor.expect(Sign::In)?;
        return Ok(Some(Comparison::NotIn));
    }
    Ok(cursor.take_comparison())
}

/// The name of a method and an open bracket.
pub fn asked(cursor: &mut Cursor) -> Result<Method, Refusal>
    ensures { Gives (asked_at cursor.old) result cursor.new }
{
    let method = cursor.expect_method()?;
    cursor.expect(Sign::OpenRound)?;
    Ok(method)
}

/// The end of a call.
pub fn end_call(
    alloc: Global,
    tree: Grown,
    parts: Parts,
    cursor: &mut Cursor,
) -> Result<Grown, Refusal>
    ensures { Gives (call_ends tree parts cursor.old) result cursor.new }
{
    cursor.expect(Sign::CloseRound)?;
    call(alloc, tree, parts)
}

/// The end of a subscript.
pub fn end_subscript(
    alloc: Global,
    tree: Grown,
    index: Grown,
    cursor: &mut Cursor,
) -> Result<Grown, Refusal>
    ensures { Gives (subscript_ends tree index cursor.old) result cursor.new }
{
    cursor.expect(Sign::CloseSquare)?;
    subscript(alloc, tree, index)
}

/// The end of what asks a generator.
pub fn end_ask(
    alloc: Global,
    tree: Grown,
    method: Method,
    parts: Parts,
    cursor: &mut Cursor,
) -> Result<Grown, Refusal>
    ensures { Gives (ask_ends tree method parts cursor.old) result cursor.new }
{
    cursor.expect(Sign::CloseRound)?;
    ask(alloc, tree, method, parts)
}
