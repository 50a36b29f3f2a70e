//! The program of a size, as trees.

ghost use Rattle.std.specs.Prelude.{◌≡◌, ◌+◌, ◌*◌, ◌<◌, ◌≤◌, ◌^◌, IfOk, OnOk, [], ◌∷◌, ◌++◌, pos};
ghost use Rattle.mon_gen.specs.Generated as spec;
ghost use Rattle.mon_trees.specs.declared.tree.Expression as expression;

use itoa::Buffer;
use mon_trees::Text;
use mon_trees::tree::{
    BinaryOperator, Expression, Function, Module, ModuleItem, Simple, Statement, Targets,
};
use sqlite_items::{Boxed, Items};
use std::alloc::{AllocError, Global};

/// The most loops of a program that is asked for.
pub const MAX_LOOPS: u16 = 500;

/// The lines of a loop.
const LOOP_LINES: u32 = 5;

// Adds the characters of an ASCII text.
fn push_ascii(text: &mut Text, ascii: &str) -> Result<(), AllocError>
    ensures { OnOk result (text.new ≡ text.old ++ ascii.now) }
{
    for byte in ascii.as_bytes() {
        text.push(*byte as char)?;
    }
    Ok(())
}

// The characters of an ASCII text.
fn text(alloc: Global, ascii: &str) -> Result<Text, AllocError>
    ensures { IfOk result (λ t. t ≡ ascii.now) }
{
    let mut text = Items::new(alloc);
    push_ascii(&mut text, ascii)?;
    Ok(text)
}

// The name of the loop with this number.
fn loop_name(alloc: Global, number: u16) -> Result<Text, AllocError>
    ensures { IfOk result (λ name. name ≡ spec.loop_name number) }
{
    let mut name = text(alloc, "f")?;
    let mut buffer = Buffer::new();
    push_ascii(&mut name, buffer.format(number))?;
    Ok(name)
}

fn name(alloc: Global, ascii: &str) -> Result<Expression, AllocError>
    ensures { IfOk result (λ e. e ≡ expression.Name ascii.now) }
{
    Ok(Expression::Name(text(alloc, ascii)?))
}

// `CALLEE(n)`
fn call(alloc: Global, callee: Text) -> Result<Expression, AllocError>
    ensures { IfOk result (λ e. e ≡ spec.call callee) }
{
    let callee = Boxed::new(alloc, Expression::Name(callee))?;
    let mut arguments = Items::new(alloc);
    arguments.push(name(alloc, "n")?)?;
    Ok(Expression::Call(callee, arguments))
}

// `TARGET = NUMBER`
fn assign(alloc: Global, line: u32, target: &str, number: u16) -> Result<Statement, AllocError>
    ensures { IfOk result (λ s. s ≡ spec.assign line target.now number) }
{
    let target = Targets::Name(text(alloc, target)?);
    let number = Expression::Integer(i64::from(number));
    Ok(Statement::Simple(line, Simple::Assign(target, number)))
}

// `TARGET += VALUE`
fn add(alloc: Global, line: u32, target: &str, value: Expression) -> Result<Statement, AllocError>
    ensures { IfOk result (λ s. s ≡ spec.add line target.now value) }
{
    let target = text(alloc, target)?;
    let add = Simple::Augmented(target, BinaryOperator::Add, value);
    Ok(Statement::Simple(line, add))
}

// `return NAME`
fn give_back(alloc: Global, line: u32, ascii: &str) -> Result<Statement, AllocError>
    ensures { IfOk result (λ s. s ≡ spec.give_back line ascii.now) }
{
    let value = name(alloc, ascii)?;
    Ok(Statement::Simple(line, Simple::Return(Some(value))))
}

// A function of one parameter, `n`.
fn function(
    alloc: Global,
    line: u32,
    name: Text,
    body: Items<Statement>,
) -> Result<ModuleItem, AllocError>
    ensures { IfOk result (λ item. item ≡ ModuleItem.Function (spec.function line name body)) }
{
    let mut parameters = Items::new(alloc);
    parameters.push(text(alloc, "n")?)?;
    Ok(ModuleItem::Function(Function {
        line,
        name,
        parameters,
        body,
    }))
}

// `for i in range(n):` with `t += i`
fn additions(alloc: Global, line: u32) -> Result<Statement, AllocError>
    requires { line < 2 ^ 31 }
    ensures { IfOk result (λ s. s ≡ spec.additions line) }
{
    let numbers = call(alloc, text(alloc, "range")?)?;
    let mut body = Items::new(alloc);
    body.push(add(alloc, line + 1, "t", name(alloc, "i")?)?)?;
    let target = Targets::Name(text(alloc, "i")?);
    Ok(Statement::For(line, target, numbers, body))
}

// The loop with this number.
fn loop_function(alloc: Global, number: u16) -> Result<ModuleItem, AllocError>
    ensures { IfOk result (λ item. item ≡ ModuleItem.Function (spec.loop_function number)) }
{
    let before = LOOP_LINES * u32::from(number);
    let mut body = Items::new(alloc);
    body.push(assign(alloc, before + 2, "t", number)?)?;
    body.push(additions(alloc, before + 3)?)?;
    body.push(give_back(alloc, before + 5, "t")?)?;
    function(alloc, before + 1, loop_name(alloc, number)?, body)
}

// Adds the lines that add up what so many loops return, the first of them on this line.
fn push_sums(
    alloc: Global,
    body: &mut Items<Statement>,
    first: u32,
    loops: u16,
) -> Result<(), AllocError>
    requires { first < 2 ^ 31 }
    ensures { OnOk result (body.new ≡ body.old ++ spec.sums first loops) }
{
    for number in 0..loops {
        let returned = call(alloc, loop_name(alloc, number)?)?;
        body.push(add(alloc, first + u32::from(number), "s", returned)?)?;
    }
    Ok(())
}

// The function that adds up what so many loops return.
fn sum_function(alloc: Global, loops: u16) -> Result<ModuleItem, AllocError>
    ensures { IfOk result (λ item. item ≡ ModuleItem.Function (spec.sum_function loops)) }
{
    let before = LOOP_LINES * u32::from(loops);
    let mut body = Items::new(alloc);
    body.push(assign(alloc, before + 2, "s", 0)?)?;
    push_sums(alloc, &mut body, before + 3, loops)?;
    body.push(give_back(alloc, before + 3 + u32::from(loops), "s")?)?;
    function(alloc, before + 1, text(alloc, "go")?, body)
}

/// The program with so many loops: `f0`, `f1` and so on, each of which adds up the numbers below its argument, and `go`,
/// which adds up what they return. Each node has the line that it has in the program's text.
pub fn generated_module(alloc: Global, loops: u16) -> Result<Module, AllocError>
    ensures { IfOk result (λ m. m ≡ spec.generated loops) }
{
    let mut items = Items::new(alloc);
    for number in 0..loops {
        items.push(loop_function(alloc, number)?)?;
    }
    items.push(sum_function(alloc, loops)?)?;
    Ok(Module { items })
}
