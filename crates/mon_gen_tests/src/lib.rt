//! Tests of `mon_gen`.
#![tactic(auto)]

#[cfg(test)]
mod tests;
