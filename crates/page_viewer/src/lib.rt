//! The viewer of a run's page: an HTML file in which a record is walked, looked at and asked.
#![tactic(auto)]

mod front;
mod rest;

pub use front::front_parts;
pub use rest::rest_parts;
