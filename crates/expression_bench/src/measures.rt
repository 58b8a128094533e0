//! How many lanes are done in a second, by the code and by plain loops.
ghost use Rattle.std.specs.Prelude.{◌<◌};
ghost use Rattle.gang_types.specs.Masks.{IsGangWidth};

use crate::store::{ELEMENTS, Store};
use crate::sums::{expression, in_one_lane};
use expression_code::compile;
use expression_runs::{Stacks, evaluate};
use gang_types::{IntType, Mask, wrap};
use std::alloc::{AllocError, Global};
use std::io;
use std::time::Instant;

// The values of the array, some below 0.
fn values() -> [i32; ELEMENTS] {
    let mut values = [-7_i32; ELEMENTS];
    for n in 1..ELEMENTS {
        values[n] = values[n - 1].wrapping_mul(31).wrapping_add(5);
    }
    values
}

// Which element a lane reads in one repeat: neighbouring ones, from another one on each time.
fn index(count: u64, lane: usize) -> usize
    ensures { result < 64 }
{
    (count.wrapping_add(lane as u64) % ELEMENTS as u64) as usize
}

fn indices<const W: usize>(count: u64) -> [u64; W] {
    let mut indices = [0; W];
    for lane in 0..W {
        indices[lane] = index(count, lane) as u64;
    }
    indices
}

// The words of `x` after so many repeats by the code.
fn repeated_by_code<const W: usize>(alloc: Global, repeats: u64) -> Result<[u64; W], AllocError>
    requires { IsGangWidth W }
{
    let code = compile(alloc, &expression(alloc)?)?;
    let mut store = Store {
        x: [1; W],
        i: [0; W],
        a: values()
            .iter()
            .map(|&value| wrap(IntType::Int32, value.into()))
            .collect(alloc)?,
    };
    let mut stacks = Stacks::new();
    for count in 0..repeats {
        store.i = indices(count);
        store.x = evaluate(&code, &store, Mask::all::<W>(), &mut stacks).unwrap_or([0; W]);
    }
    Ok(store.x)
}

// The values of `x` after so many repeats in plain loops.
fn repeated_in_loops<const W: usize>(repeats: u64) -> [i32; W] {
    let a = values();
    let mut x = [1_i32; W];
    for count in 0..repeats {
        for lane in 0..W {
            x[lane] = in_one_lane(x[lane], a[index(count, lane)]);
        }
    }
    x
}

fn lanes_a_second<const W: usize>(repeats: u64, nanos: u128) -> u64 {
    let lanes = repeats as u128 * W as u128;
    let rate = lanes.saturating_mul(1_000_000_000) / nanos.max(1);
    rate.min(1 << 50) as u64
}

fn row<const W: usize>(rt: &HostRuntime, repeats: u64) -> io::Result<()>
    requires { IsGangWidth W }
{
    let before = Instant::now(rt)?;
    let words = repeated_by_code::<W>(rt.alloc(), repeats)?;
    let coded = lanes_a_second::<W>(repeats, before.elapsed(rt)?.as_nanos());
    let before = Instant::now(rt)?;
    let values = repeated_in_loops::<W>(repeats);
    let looped = lanes_a_second::<W>(repeats, before.elapsed(rt)?.as_nanos());
    let is_same = words.iter().zip(values.iter()).all(|(&word, &value)| word
        == wrap(IntType::Int32, value.into()));
    let verdict = if is_same { "" } else { " DIFFERENT RESULTS" };
    println!(rt;
        "{W:>5} {coded:>15} {looped:>15}  x {}{verdict}",
        looped / coded.max(1)
    )
}

/// Prints a row for each width.
pub(crate) fn measure_all(rt: &HostRuntime, repeats: u64) -> io::Result<()> {
    println!(rt; "{:>5} {:>15} {:>15}", "lanes", "code", "loop")?;
    row::<4>(rt, repeats)?;
    row::<8>(rt, repeats)?;
    row::<16>(rt, repeats)
}
