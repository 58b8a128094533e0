//! Times the two records of old words beside each other, by events that set a few words.
//!
//! Run with a number of events, it prints how long one takes in each record, there and back, where the record has few words and
//! many. Without it, it says so.
#![tactic(auto)]

mod events;
mod measures;

use std::{env, io};

fn main(rt: HostRuntime) -> io::Result<()> {
    let events: Option<u64> = match env::args(&rt)?.nth(1) {
        Some(word) => word.as_str().parse().ok(),
        None => None,
    };
    match events {
        Some(events) => measures::measure_all(&rt, events),
        None => println!(rt; "usage: record_bench EVENTS"),
    }
}
