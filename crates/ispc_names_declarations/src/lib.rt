//! What declarations bring into scope, and names that their scope has already.
#![tactic(auto)]

mod declarations;
mod file_scope;
mod signatures;

pub use declarations::{declaration_fault, dims_fault, is_built_in, params_fault};
pub use file_scope::{add_names, declare_globals, functions_of, globals_of, globals_twice_fault};
pub use signatures::functions_twice_fault;
