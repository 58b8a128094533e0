//! Calls that are statements or stand whole after `=` or `return`: of a user's function, `assert` and the packed calls.
#![tactic(auto)]

mod arguments;
mod calls;
mod context;
mod faults;
mod library;
mod user_calls;
mod whole;

pub use calls::{Called, Receiver, call_of, right_call};
pub use context::Context;
pub use whole::{WholeCall, whole_call};
