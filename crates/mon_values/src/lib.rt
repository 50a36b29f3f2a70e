//! The values of the machine: what they are, how they compare, compute and print.
#![tactic(auto)]

pub mod arith;
pub mod class;
pub mod compare;
pub mod contain;
pub mod exc;
pub mod fault;
pub mod index;
mod limited;
pub mod operator;
pub mod print;
pub mod range;
pub mod text;
pub mod trouble;
pub mod truth;
pub mod value;
pub mod weight;
