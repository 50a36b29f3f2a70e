//! Where a function yields.

ghost use Rattle.std.specs.Prelude.{◌≡◌, ◌++◌, map};
ghost use Rattle.mon_compile.specs.Clauses.{clause_yields};
ghost use Rattle.mon_compile.specs.Faults.{least};
ghost use Rattle.mon_compile.specs.Functions as spec;

use crate::earlier::earlier;
use mon_trees::tree::{Expression, Function, Handler, Simple, Statement};

/// Whether a function has a `yield`.
pub fn is_generator(function: &Function) -> bool
    ensures { result ≡ spec.is_generator function.now }
{
    yield_in_block(function.body.as_slice()).is_some()
}

// The least line of a `yield` in a block.
#[cycle(yield_in_block)]
fn yield_in_block(body: &[Statement]) -> Option<u32>
    ensures { result ≡ least (spec.joined (map spec.yields_of body.now)) }
{
    let mut line = None;
    for statement in body {
        line = earlier(line, yield_in_statement(statement));
    }
    line
}

#[cycle(yield_in_block)]
fn yield_in_handlers(handlers: &[Handler]) -> Option<u32>
    ensures { result ≡ least (spec.joined (map clause_yields handlers.now)) }
{
    let mut line = None;
    for handler in handlers {
        line = earlier(line, yield_in_handler(handler));
    }
    line
}

#[cycle(yield_in_block)]
fn yield_in_handler(handler: &Handler) -> Option<u32>
    ensures { result ≡ least (clause_yields handler.now) }
{
    let line = yield_within(&handler.class);
    earlier(line, yield_in_block(handler.body.as_slice()))
}

#[cycle(yield_in_block)]
fn yield_in_statement(statement: &Statement) -> Option<u32>
    ensures { result ≡ least (spec.yields_of statement.now) }
{
    match statement {
        Statement::Simple(_, simple) => yield_in_simple(simple),
        Statement::If(_, test, body, other) => {
            let line = yield_in_expression(test);
            let line = earlier(line, yield_in_block(body.as_slice()));
            earlier(line, yield_in_block(other.as_slice()))
        }
        Statement::While(_, test, body) => {
            let line = yield_in_expression(test);
            earlier(line, yield_in_block(body.as_slice()))
        }
        Statement::For(_, _, whole, body) => {
            let line = yield_in_expression(whole);
            earlier(line, yield_in_block(body.as_slice()))
        }
        Statement::Try(_, body, handlers, last) => {
            let line = yield_in_block(body.as_slice());
            let line = earlier(line, yield_in_handlers(handlers.as_slice()));
            earlier(line, yield_in_block(last.as_slice()))
        }
    }
}

fn yield_in_simple(simple: &Simple) -> Option<u32>
    ensures { result ≡ least (spec.simple_yields simple.now) }
{
    match simple {
        Simple::Return(value) => yield_within(value),
        Simple::Raise(value) => yield_within(value),
        Simple::Augmented(_, _, value) => yield_in_expression(value),
        Simple::Assign(_, value) => yield_in_expression(value),
        Simple::Expression(value) => yield_in_expression(value),
        _ => None,
    }
}

fn yield_within(expression: &Option<Expression>) -> Option<u32>
    ensures { result ≡ least (spec.yields_within expression.now) }
{
    match expression {
        Some(expression) => yield_in_expression(expression),
        None => None,
    }
}

#[cycle(yield_in_expression)]
fn yield_in_expression(expression: &Expression) -> Option<u32>
    ensures { result ≡ least (spec.yields_in expression.now) }
{
    match expression {
        Expression::Tuple(parts) => yield_in_all(parts.as_slice()),
        Expression::Yield(line, value) => match value {
            Some(value) => earlier(Some(*line), yield_in_expression(value.get())),
            None => Some(*line),
        },
        Expression::If(a, test, b) => {
            let line = yield_in_expression(a.get());
            let line = earlier(line, yield_in_expression(test.get()));
            earlier(line, yield_in_expression(b.get()))
        }
        Expression::Or(a, b) => yield_in_two(a.get(), b.get()),
        Expression::And(a, b) => yield_in_two(a.get(), b.get()),
        Expression::Not(a) => yield_in_expression(a.get()),
        Expression::Compare(_, a, b) => yield_in_two(a.get(), b.get()),
        Expression::Is(a, _) => yield_in_expression(a.get()),
        Expression::IsNot(a, _) => yield_in_expression(a.get()),
        Expression::Binary(_, a, b) => yield_in_two(a.get(), b.get()),
        Expression::Negative(a) => yield_in_expression(a.get()),
        Expression::Call(f, args) => yield_in_call(f.get(), args.as_slice()),
        Expression::Method(object, _, args) => yield_in_call(object.get(), args.as_slice()),
        Expression::Subscript(a, i) => yield_in_two(a.get(), i.get()),
        _ => None,
    }
}

#[cycle(yield_in_expression)]
#[tactic(auto, using(crate::proofs::Least::least_append))]
fn yield_in_two(a: &Expression, b: &Expression) -> Option<u32>
    ensures { result ≡ least (spec.yields_in a.now ++ spec.yields_in b.now) }
{
    let line = yield_in_expression(a);
    earlier(line, yield_in_expression(b))
}

#[cycle(yield_in_expression)]
#[tactic(auto, using(crate::proofs::Least::least_append))]
fn yield_in_call(callee: &Expression, args: &[Expression]) -> Option<u32>
    ensures { result ≡ least (spec.yields_in callee.now ++ spec.joined (map spec.yields_in args.now)) }
{
    let line = yield_in_expression(callee);
    earlier(line, yield_in_all(args))
}

#[cycle(yield_in_expression)]
fn yield_in_all(expressions: &[Expression]) -> Option<u32>
    ensures { result ≡ least (spec.joined (map spec.yields_in expressions.now)) }
{
    let mut line = None;
    for expression in expressions {
        line = earlier(line, yield_in_expression(expression));
    }
    line
}
