//! Declarations, assignments and calls, without the `;` that ends them.
#![tactic(auto)]

mod parts;

pub use parts::{behind, between, declaration, simple};
