//! The input text: what it gives the entry's parameters and the variables of the file.
#![tactic(auto)]

mod fault;
mod lines;
mod numbers;
mod parameters;
mod reading;
mod receivers;
mod values;

pub use fault::InputFault;
pub use input_rows::InputRow;
pub use reading::{MOST_BYTES, read_inputs};
