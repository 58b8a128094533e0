//! What the language, the debugger and their texts mean: definitions, in `specs/`, and the small types that they speak of.
#![tactic(auto)]

mod forms;
mod marks;
mod refusals;

pub use forms::{GlobalForm, Infix, Label, Literal, Spec};
pub use marks::Mark;
pub use refusals::{RefusalNumber, SourceRefusal};
