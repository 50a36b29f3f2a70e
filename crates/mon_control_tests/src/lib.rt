//! The registry over a plain board.
#![tactic(auto)]

#[cfg(test)]
mod tests;
