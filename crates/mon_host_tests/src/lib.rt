//! `run`, over threads of the system.
#![tactic(auto)]

#[cfg(test)]
mod tests;
