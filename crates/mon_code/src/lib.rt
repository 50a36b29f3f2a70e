//! Checked programs: what the compiler hands to the machine.
#![tactic(auto)]

mod laws;
mod operator;
mod own;
mod program;
mod site;

pub use laws::handlers_keep_no_yielded_value;
pub use operator::{arith_number, arith_op_of_number, cmp_number, cmp_op_of_number};
pub use program::{Code, Handler, Location, ModuleConstant, Program, is_named, is_same};
pub use site::Site;
