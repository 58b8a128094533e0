//! Whose name it is: the library's names, the declarations in scope, and the faults of names in expressions.
#![tactic(auto)]

mod bindings;
mod functions;
mod library;
mod scopes;
mod texts;

pub use functions::FunctionNames;
pub use library::{StatementCall, is_library_name, statement_call};
pub use scopes::{ScopeMark, Scopes};
pub use texts::is_same;
