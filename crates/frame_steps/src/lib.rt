//! The step that comes next in the words of a machine, the values of its expressions, and the steps that stay in their frame: moves,
//! `assert`, and those that write a variable or a result. What they change is recorded.
#![tactic(auto)]

mod active;
mod assignments;
mod checks;
mod choosing;
mod compiled;
mod delivering;
mod elements;
mod levels;
mod moves;
mod packed;
mod parts;
mod reading;
mod recording;
mod rounds_left;
mod sending;
mod values;
mod waiting;

pub use active::{Active, next_step};
pub use assignments::{assign, change, declare, finish, give_result, region_of};
pub use checks::check;
pub use choosing::choose;
pub use compiled::CompiledProgram;
pub use delivering::deliver_values;
pub use elements::{assign_element, change_element};
pub use levels::{FrameStep, frame_step, innermost};
pub use moves::{branch, go};
pub use packed::{load_packed, store_packed};
pub use parts::named_part;
pub use reading::TopVariables;
pub use recording::begin;
pub use rounds_left::{bounds_of, kept_rounds};
pub use sending::send_on;
pub use values::value_of;
pub use waiting::{least, waiting_for};
