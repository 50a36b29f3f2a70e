//! Tests of `mon_forms`.
#![tactic(auto)]

#[cfg(test)]
mod tests;
