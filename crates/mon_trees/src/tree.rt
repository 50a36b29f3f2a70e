//! The trees of a program's text.

use crate::Text;
use sqlite_items::{Boxed, Items};

/// The trees of a text's items, in order.
#[derive(Debug, Drop)]
pub struct Module {
    pub items: Items<ModuleItem>,
}

/// What stands at the outermost level of a module.
#[derive(Debug, Drop)]
pub enum ModuleItem {
    Function(Function),
    /// `NAME = constant`, with the line of the name.
    Constant(u32, Text, Constant),
    /// A text that stands alone.
    Text(Text),
}

/// A `def`, with its line.
#[derive(Debug, Drop)]
pub struct Function {
    pub line: u32,
    pub name: Text,
    pub parameters: Items<Text>,
    /// At least one statement.
    pub body: Items<Statement>,
}

/// `None`, `True` or `False`.
#[derive(Clone, Copy, Debug, Drop, PartialEq, Eq)]
pub enum Single {
    None,
    True,
    False,
}

/// What a name of the module stands for.
#[derive(Debug, Drop)]
pub enum Constant {
    /// A number, with its sign.
    Integer(i64),
    Text(Text),
    Single(Single),
    /// `()`
    Empty,
    /// Constants that are written with a comma.
    Tuple(Items<Constant>),
}

/// A statement, with the line of its first token.
#[cycle(statement)]
#[derive(Debug, Drop)]
pub enum Statement {
    Simple(u32, Simple),
    /// `if` with its condition, its block and the block after `else`, which is empty where there is none.
    ///
    /// An `elif` is an `if` alone in the block after `else`, with its own line.
    If(u32, Expression, Items<Statement>, Items<Statement>),
    /// `while` with its condition and its block.
    While(u32, Expression, Items<Statement>),
    /// `for` with what is assigned to, what is iterated over, and its block.
    For(u32, Targets, Expression, Items<Statement>),
    /// `try` with its block, its handlers, and the block after `finally`. Of these two one may be empty.
    Try(u32, Items<Statement>, Items<Handler>, Items<Statement>),
}

/// An `except` clause, with its line. A bare one has no class.
#[cycle(statement)]
#[derive(Debug, Drop)]
pub struct Handler {
    pub line: u32,
    pub class: Option<Expression>,
    /// The name after `as`.
    pub name: Option<Text>,
    pub body: Items<Statement>,
}

/// A statement without a block.
#[derive(Debug, Drop)]
pub enum Simple {
    Pass,
    Break,
    Continue,
    Return(Option<Expression>),
    Raise(Option<Expression>),
    /// `NAME += value` and the like.
    Augmented(Text, BinaryOperator, Expression),
    Assign(Targets, Expression),
    Expression(Expression),
}

/// What is assigned to.
#[derive(Debug, Drop)]
pub enum Targets {
    Name(Text),
    /// Names that are written with a comma.
    Tuple(Items<Text>),
}

/// An arithmetic operator.
#[derive(Clone, Copy, Debug, Drop, PartialEq, Eq)]
pub enum BinaryOperator {
    /// `+`
    Add,
    /// `-`
    Subtract,
    /// `*`
    Multiply,
    /// `//`
    FloorDivide,
    /// `%`
    Remainder,
}

/// An operator of comparison, apart from `is`.
#[derive(Clone, Copy, Debug, Drop, PartialEq, Eq)]
pub enum Comparison {
    /// `==`
    Equal,
    /// `!=`
    NotEqual,
    /// `<`
    Less,
    /// `<=`
    LessEqual,
    /// `>`
    Greater,
    /// `>=`
    GreaterEqual,
    /// `in`
    In,
    /// `not in`
    NotIn,
}

/// What a generator is asked to do.
#[derive(Clone, Copy, Debug, Drop, PartialEq, Eq)]
pub enum Method {
    /// `send`
    Send,
    /// `throw`
    Throw,
    /// `close`
    Close,
}

/// An expression. Brackets that only group leave no trace.
#[derive(Debug, Drop)]
pub enum Expression {
    Name(Text),
    Integer(i64),
    /// A text, or adjacent ones joined.
    Text(Text),
    Single(Single),
    /// `()`
    Empty,
    /// Expressions that are written with a comma.
    Tuple(Items<Expression>),
    /// `yield`, with its line.
    Yield(u32, Option<Boxed<Expression>>),
    /// `a if test else b` is `If(a, test, b)`.
    If(Boxed<Expression>, Boxed<Expression>, Boxed<Expression>),
    Or(Boxed<Expression>, Boxed<Expression>),
    And(Boxed<Expression>, Boxed<Expression>),
    Not(Boxed<Expression>),
    Compare(Comparison, Boxed<Expression>, Boxed<Expression>),
    /// `a is None` and the like.
    Is(Boxed<Expression>, Single),
    /// `a is not None` and the like.
    IsNot(Boxed<Expression>, Single),
    Binary(BinaryOperator, Boxed<Expression>, Boxed<Expression>),
    /// A minus sign before an operand.
    Negative(Boxed<Expression>),
    Call(Boxed<Expression>, Items<Expression>),
    /// `a.send(b)` and the like.
    Method(Boxed<Expression>, Method, Items<Expression>),
    /// `a[b]`
    Subscript(Boxed<Expression>, Boxed<Expression>),
}
