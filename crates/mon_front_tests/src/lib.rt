//! The lexer, the parser and the compiler over whole texts.
#![tactic(auto)]

#[cfg(test)]
mod tests;
