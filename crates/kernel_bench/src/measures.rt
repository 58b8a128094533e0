//! The time of each operation, repeated on its own results.
use crate::operations::{LANES, Lanes, OPERATIONS, Operation, START, Way};
use gang_types::IntType;
use std::io;
use std::rt::Clock;
use std::time::Instant;

const REPEATS: u64 = 40_000;

const ROUNDS: u32 = 5;

// The second operand of every round.
const SECOND: Lanes = [7, 3, 1, 9, 2, 4, 6, 5];

// The words after the operation is made again and again, each time on other words.
fn repeated(operation: Operation, way: Way, ty: IntType) -> Lanes {
    let mut words = START;
    for count in 0..REPEATS {
        let first = lane_kernels::xor(IntType::Uint64, words, [count; LANES]);
        words = operation.words(way, ty, first, SECOND);
    }
    words
}

// The time of one lane in picoseconds, and the words at the end.
fn timed<R: Clock>(
    rt: &R,
    operation: Operation,
    way: Way,
    ty: IntType,
) -> io::Result<(u64, Lanes)> {
    let before = Instant::now(rt)?;
    let words = repeated(operation, way, ty);
    let nanos = before.elapsed(rt)?.as_nanos();
    let picos = nanos.saturating_mul(1000) / (REPEATS as u128 * LANES as u128);
    Ok((picos.min(1 << 50) as u64, words))
}

// The least time of one lane in so many rounds, and the words at the end.
fn least<R: Clock>(
    rt: &R,
    operation: Operation,
    way: Way,
    ty: IntType,
) -> io::Result<(u64, Lanes)> {
    let (mut least, words) = timed(rt, operation, way, ty)?;
    for _round in 1..ROUNDS {
        let (picos, _) = timed(rt, operation, way, ty)?;
        least = least.min(picos);
    }
    Ok((least, words))
}

fn row<R: Clock + Print>(rt: &R, name: &str, operation: Operation, ty: IntType) -> io::Result<()> {
    let (fast, words) = least(rt, operation, Way::Vectors, ty)?;
    let (slow, same) = least(rt, operation, Way::Loop, ty)?;
    let hundredths = slow.saturating_mul(100) / fast.max(1);
    let verdict = if words == same {
        ""
    } else {
        " DIFFERENT RESULTS"
    };
    println!(rt;
        "{name:<14} {fast:>7} ps {slow:>7} ps  x {}.{:02}{verdict}",
        hundredths / 100,
        hundredths % 100
    )
}

/// Prints the time of each operation on a type for a lane, of its vectors and of its plain loop, each the least of some
/// rounds.
///
/// # Errors
///
/// That of printing.
pub fn measure_all<R: Clock + Print>(rt: &R, ty: IntType) -> io::Result<()> {
    println!(rt; "{:<14} {:>10} {:>10}", "operation", "vectors", "loop")?;
    for (name, operation) in OPERATIONS {
        row(rt, name, operation, ty)?;
    }
    Ok(())
}
