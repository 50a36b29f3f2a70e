mod comparisons;
mod integers;
mod limits;
mod operators;
mod printing;
mod sample;
mod sequences;
mod values;
