//! Tests of `mon_main`.
#![tactic(auto)]

#[cfg(test)]
mod tests;
