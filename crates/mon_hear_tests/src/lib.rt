//! Tests of `mon_hear` and of the records that it makes.
#![tactic(auto)]

#[cfg(test)]
mod tests;
