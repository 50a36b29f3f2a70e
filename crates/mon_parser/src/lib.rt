//! The trees of a program's text, from its tokens.
#![tactic(auto)]

mod block;
mod constant;
mod cursor;
mod expression;
mod grown;
mod item;
mod laws;
mod levels;
mod operand;
mod parser;
mod refusal;
mod statement;

pub use laws::{
    every_text_is_read, expression_derives_once, item_derives_once, item_keeps_limits,
    items_parse_once, texts_are_read_once,
};
pub use parser::{SyntaxFault, parse};
