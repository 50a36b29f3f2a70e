//! Tests of `mon_builtins`.
#![tactic(auto)]

#[cfg(test)]
mod tests;
