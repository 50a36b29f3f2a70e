//! Constants over the limits of weight and depth.

ghost use Rattle.std.specs.Prelude.{◌≡◌, [], ◌∷◌, map, nat_le, sum};
ghost use Rattle.mon_values.specs.declared.value.Value as value;
ghost use Rattle.mon_values.specs.Weights.{weight, depth, greatest, left_of};
ghost use Rattle.mon_compile.specs.Clauses.{clause_large};
ghost use Rattle.mon_compile.specs.Faults as spec;
ghost use Rattle.mon_compile.specs.Functions.{joined};
ghost use Rattle.mon_compile.specs.Modules.{constant_value};

use crate::earlier::earlier;
use crate::simple::is_lone_text;
use mon_trees::Text;
use mon_trees::tree::{Constant, Expression, Handler, ModuleItem, Simple, Statement};
use mon_values::weight::{MAX_DEPTH, MAX_WEIGHT};

/// The least line of a statement, of a clause's header or of a constant of the module that has a constant over the limits.
pub fn large(items: &[ModuleItem]) -> Option<u32>
    ensures { result ≡ spec.least (spec.large_lines_in items.now) }
{
    let mut line = None;
    for item in items {
        line = earlier(line, large_in_item(item));
    }
    line
}

fn large_in_item(item: &ModuleItem) -> Option<u32>
    ensures { result ≡ spec.least (spec.large_lines_in (item.now ∷ [])) }
{
    match item {
        ModuleItem::Function(function) => large_in_block(function.body.as_slice()),
        ModuleItem::Constant(line, _, constant) => is_large(constant).then_some(*line),
        ModuleItem::Text(_) => None,
    }
}

// Whether a constant is over the limits.
fn is_large(constant: &Constant) -> bool
    ensures { result ≡ spec.is_large (constant_value constant.now) }
{
    spend(constant, MAX_WEIGHT).is_none() || !nests_at_most(constant, MAX_DEPTH)
}

// What is left of a budget after the weight of a constant, if it suffices.
#[cycle(spend)]
fn spend(constant: &Constant, budget: u64) -> Option<u64>
    ensures { result ≡ left_of budget (weight (constant_value constant.now)) }
{
    match constant {
        Constant::Text(text) => budget.checked_sub((text.len() as u64).max(1)),
        Constant::Tuple(parts) => spend_all(parts.as_slice(), budget.checked_sub(1)?),
        Constant::Integer(_) | Constant::Single(_) | Constant::Empty => budget.checked_sub(1),
    }
}

#[cycle(spend)]
#[tactic(auto, using(crate::proofs::Constants::none_left, crate::proofs::Constants::left_then))]
fn spend_all(constants: &[Constant], budget: u64) -> Option<u64>
    ensures { result ≡ left_of budget (sum (map weight (map constant_value constants.now))) }
{
    let mut left = budget;
    for constant in constants {
        left = spend(constant, left)?;
    }
    Some(left)
}

// Whether the depth of a constant is at most a limit.
#[cycle(nests_at_most)]
fn nests_at_most(constant: &Constant, limit: u64) -> bool
    ensures { result ≡ nat_le (depth (constant_value constant.now)) limit }
{
    match constant {
        Constant::Tuple(parts) => limit > 0 && all_nest_at_most(parts.as_slice(), limit - 1),
        Constant::Empty => limit > 0,
        Constant::Integer(_) | Constant::Text(_) | Constant::Single(_) => true,
    }
}

#[cycle(nests_at_most)]
#[tactic(auto, using(crate::proofs::Constants::greatest_then, crate::proofs::Constants::greatest_above))]
fn all_nest_at_most(constants: &[Constant], limit: u64) -> bool
    ensures { result ≡ nat_le (greatest (map depth (map constant_value constants.now))) limit }
{
    for constant in constants {
        if !nests_at_most(constant, limit) {
            return false;
        }
    }
    true
}

#[cycle(large_in_block)]
fn large_in_block(body: &[Statement]) -> Option<u32>
    ensures { result ≡ spec.least (joined (map spec.large_lines_of body.now)) }
{
    let mut line = None;
    for statement in body {
        line = earlier(line, large_in_statement(statement));
    }
    line
}

#[cycle(large_in_block)]
fn large_in_handlers(handlers: &[Handler]) -> Option<u32>
    ensures { result ≡ spec.least (joined (map clause_large handlers.now)) }
{
    let mut line = None;
    for handler in handlers {
        line = earlier(line, large_in_handler(handler));
    }
    line
}

#[cycle(large_in_block)]
fn large_in_handler(handler: &Handler) -> Option<u32>
    ensures { result ≡ spec.least (clause_large handler.now) }
{
    let line = line_if(has_large_within(&handler.class), handler.line);
    earlier(line, large_in_block(handler.body.as_slice()))
}

#[cycle(large_in_block)]
fn large_in_statement(statement: &Statement) -> Option<u32>
    ensures { result ≡ spec.least (spec.large_lines_of statement.now) }
{
    match statement {
        Statement::Simple(line, simple) => line_if(simple_large(simple), *line),
        Statement::If(line, test, body, other) => {
            let line = line_if(has_large(test), *line);
            let line = earlier(line, large_in_block(body.as_slice()));
            earlier(line, large_in_block(other.as_slice()))
        }
        Statement::While(line, test, body) => {
            let line = line_if(has_large(test), *line);
            earlier(line, large_in_block(body.as_slice()))
        }
        Statement::For(line, _, whole, body) => {
            let line = line_if(has_large(whole), *line);
            earlier(line, large_in_block(body.as_slice()))
        }
        Statement::Try(_, body, handlers, last) => {
            let line = large_in_block(body.as_slice());
            let line = earlier(line, large_in_handlers(handlers.as_slice()));
            earlier(line, large_in_block(last.as_slice()))
        }
    }
}

fn line_if(holds: bool, line: u32) -> Option<u32>
    ensures { result ≡ spec.least (spec.where_so holds line) }
{
    holds.then_some(line)
}

fn simple_large(simple: &Simple) -> bool
    ensures { result ≡ spec.simple_large simple.now }
{
    match simple {
        Simple::Return(value) => has_large_within(value),
        Simple::Raise(value) => has_large_within(value),
        Simple::Augmented(_, _, value) => has_large(value),
        Simple::Assign(_, value) => has_large(value),
        Simple::Expression(value) => !is_lone_text(value) && has_large(value),
        _ => false,
    }
}

fn has_large_within(expression: &Option<Expression>) -> bool
    ensures { result ≡ spec.has_large_within expression.now }
{
    match expression {
        Some(expression) => has_large(expression),
        None => false,
    }
}

// Whether an expression has a constant over the limits. Only a text can be one.
#[cycle(has_large)]
fn has_large(expression: &Expression) -> bool
    ensures { result ≡ spec.has_large expression.now }
{
    match expression {
        Expression::Text(text) => is_large_text(text),
        Expression::Tuple(parts) => any_large(parts.as_slice()),
        Expression::Yield(_, value) => match value {
            Some(value) => has_large(value.get()),
            None => false,
        },
        Expression::If(a, test, b) => {
            has_large(a.get()) || has_large(test.get()) || has_large(b.get())
        }
        Expression::Or(a, b) => has_large(a.get()) || has_large(b.get()),
        Expression::And(a, b) => has_large(a.get()) || has_large(b.get()),
        Expression::Not(a) => has_large(a.get()),
        Expression::Compare(_, a, b) => has_large(a.get()) || has_large(b.get()),
        Expression::Is(a, _) => has_large(a.get()),
        Expression::IsNot(a, _) => has_large(a.get()),
        Expression::Binary(_, a, b) => has_large(a.get()) || has_large(b.get()),
        Expression::Negative(a) => has_large(a.get()),
        Expression::Call(f, args) => has_large(f.get()) || any_large(args.as_slice()),
        Expression::Method(object, _, args) => {
            has_large(object.get()) || any_large(args.as_slice())
        }
        Expression::Subscript(a, i) => has_large(a.get()) || has_large(i.get()),
        Expression::Name(_) | Expression::Integer(_) => false,
        Expression::Single(_) | Expression::Empty => false,
    }
}

#[tactic(auto, using(crate::proofs::Constants::large_text))]
fn is_large_text(text: &Text) -> bool
    ensures { result ≡ spec.is_large (value.Text text.now) }
{
    text.len() as u64 > MAX_WEIGHT
}

#[cycle(has_large)]
fn any_large(expressions: &[Expression]) -> bool
    ensures { result ≡ spec.any_large (map spec.has_large expressions.now) }
{
    for expression in expressions {
        if has_large(expression) {
            return true;
        }
    }
    false
}
