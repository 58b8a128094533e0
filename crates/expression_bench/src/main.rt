//! Times `x = x * 3 + a[i]` on int32 by its code beside plain loops.
//!
//! Run with a number of repeats, it prints for gangs of 4, 8 and 16 lanes how many lanes each of the two does in a second,
//! and how many times as many the loops do. Without it, it says so.
#![tactic(auto)]

mod measures;
mod store;
mod sums;

use std::{env, io};

fn main(rt: HostRuntime) -> io::Result<()> {
    let repeats: Option<u64> = match env::args(&rt)?.nth(1) {
        Some(word) => word.as_str().parse().ok(),
        None => None,
    };
    match repeats {
        Some(repeats) => measures::measure_all(&rt, repeats),
        None => println!(rt; "usage: expression_bench REPEATS"),
    }
}
