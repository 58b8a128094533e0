//! What a prompt shows of values: variables, elements, expressions, other digits, and what conditions come to.
#![tactic(auto)]

mod expressions;
mod forms;
mod functions;
mod gang_values;
mod numbered;
mod returned;
mod slices;
mod telling;
mod values;

pub use expressions::{print_expression, print_instead, value_instead};
pub use forms::{Form, form_of, print_formatted, show_form, show_form_here, show_formatted};
pub use functions::show_functions;
pub use gang_values::GangValue;
pub use numbered::{NumberedValue, Printed, ValueName, Values, value_name};
pub use returned::{Awaited, awaited_by, tell_returned};
pub use telling::{
    tell_condition, tell_conditions, tell_counted, tell_missing, tell_moved, tell_no_stop,
    tell_passes, tell_said, tell_unheld, tell_watch_conditions,
};
pub use values::{do_and_show, print_answer, print_shown, set_and_show, show_target, tell_answer};
