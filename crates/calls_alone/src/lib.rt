//! Makes a public call that takes memory by itself, on values that were made before.
//!
//! It is a library, so that its proof links nothing: that each call's `requires` is met here is proved. The program that makes a call
//! twice is built by the test (`tools/testing/calls_alone.py`).
#![tactic(auto)]

mod ends;
mod logs;
mod messages;
mod profiles;
mod programs;
mod records;
mod replies;
mod runs;
mod samples;
mod sources;
mod stops;

pub use ends::Ended;
use std::alloc::Global;

/// Makes the call of a name, and gives how it ended: `None` where there is no memory for the values that it is made on, or no such call.
///
/// It has no contract. Which end comes is a matter of the memory that is found, and no contract says that any is: the test shows it.
pub fn call(alloc: Global, name: &str) -> Option<Ended> {
    sources::call(alloc, name)
        .or(programs::call(alloc, name))
        .or(records::call(alloc, name))
        .or(runs::call(alloc, name))
        .or(profiles::call(alloc, name))
        .or(stops::call(alloc, name))
        .or(logs::call(alloc, name))
        .or(messages::call(alloc, name))
        .or(replies::call(alloc, name))
}
