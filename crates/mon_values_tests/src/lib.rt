//! Tests of `mon_values`.
#![tactic(auto)]

#[cfg(test)]
mod tests;
