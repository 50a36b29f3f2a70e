//! Tests of `mon_parser`.
#![tactic(auto)]

#[cfg(test)]
mod tests;
