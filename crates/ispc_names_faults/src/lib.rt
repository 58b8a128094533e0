//! The faults of names of a whole tree: names that nothing declares, names that are declared twice, and statements and calls
//! where they may not stand.
#![tactic(auto)]

mod outermost;
mod statements;
mod whole;

pub use ispc_names_declarations::{functions_of, globals_of};
pub use ispc_names_expressions::{arguments_fault, expression_fault};
pub use whole::names_fault;
