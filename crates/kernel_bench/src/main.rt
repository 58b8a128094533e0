//! Times each operation on vectors beside its plain loop.
//!
//! Run with the word `signed` or `unsigned`, it prints for each operation at `int32` or `uint32` the time per lane
//! of both, in picoseconds, and how many times as long the plain loop takes. Without it, it says so.
#![tactic(auto)]

mod measures;
mod operations;

use gang_types::IntType;
use std::{env, io};

fn main(rt: HostRuntime) -> io::Result<()> {
    match env::args(&rt)?.nth(1) {
        Some(word) if word.as_str() == "signed" => measures::measure_all(&rt, IntType::Int32),
        Some(word) if word.as_str() == "unsigned" => measures::measure_all(&rt, IntType::Uint32),
        _ => println!(rt; "usage: kernel_bench signed|unsigned"),
    }
}
