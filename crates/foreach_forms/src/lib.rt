//! The foreach forms of a typed program.
#![tactic(auto)]

mod forms;

pub use forms::{Form, Word, forms_of};
