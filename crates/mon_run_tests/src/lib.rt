//! The serial run of whole plans.
#![tactic(auto)]

#[cfg(test)]
mod tests;
