//! Tests of `mon_recorders`.
#![tactic(auto)]

#[cfg(test)]
mod tests;
