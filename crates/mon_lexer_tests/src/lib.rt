//! Tests of `mon_lexer`.
#![tactic(auto)]

#[cfg(test)]
mod tests;
