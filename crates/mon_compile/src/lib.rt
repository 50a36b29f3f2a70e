//! From the trees of a module to its program.
#![tactic(auto)]

mod assembly;
mod bindings;
mod catching;
mod codes;
mod compound;
mod duplicates;
mod earlier;
mod emitter;
mod expressions;
mod fault;
mod function;
mod generators;
mod large;
mod leaving;
mod marking;
mod misplaced;
mod program;
mod scheme_laws;
mod scope;
mod settle;
mod simple;
mod surroundings;
mod tree_fault;
mod yields;

pub use fault::CompileFault;
pub use generators::has_generators;
pub use program::compile;
pub use scheme_laws::{
    breaks_stand_in_loops, code_has_labels_of_context, compiled_programs_are_checked,
    compiled_programs_have_content, contexts_have_indexes_alone, function_code_fits_depths,
    generators_are_functions_that_yield, lengths_depend_on_no_index,
};
