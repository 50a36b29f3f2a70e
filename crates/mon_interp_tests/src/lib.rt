//! Tests of `mon_interp`.
#![tactic(auto)]

#[cfg(test)]
mod tests;
