//! The functions of a tree in the typed tree, and the faults of their types.
#![tactic(auto)]

mod bodies;
mod collected;
mod functions;
mod signatures;

pub use functions::typed_functions;
pub use signatures::{variable_fault, varying_fault};
