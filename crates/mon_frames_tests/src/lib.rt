//! Tests of `mon_frames`.
#![tactic(auto)]

#[cfg(test)]
mod tests;
