//! Statements of a ported source that hold no others: assignments, changes, calls, declarations, `return`, `break` and `continue`.
#![tactic(auto)]

mod arms;
mod declarations;
mod lines;
mod specs;
mod statements;

pub use declarations::{declaration, declare_value, is_array, push_name, push_words, value_part};
pub use lines::{
    begin, enclose_from, end_of, ending, finish, further, has_continue, head_value, inner_indent,
    leave_out, leave_room, leaving, line_start, write,
};
pub use specs::{Spec, spec_of};
pub use statements::{read_leaving, read_return, simple, simple_parts};
