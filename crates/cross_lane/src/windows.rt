//! Lanes moved within a row of words.
ghost use Rattle.std.specs.Prelude.{◌≡◌, ℕ, ◌+◌, ◌*◌, ◌%◌, ◌<◌, ◌≤◌, ◌++◌, length, take, slice_index};
ghost use Rattle.std.specs.Simd.Lanes.{chunk, put_chunk};
ghost use Rattle.gang_types.specs.Masks.{IsGangWidth};
ghost use Rattle.cross_lane.specs.Folds.{windowed};

use std::simd::prelude::*;

fn filled(fill: u64) -> [u64; 48]
    ensures { (i : ℕ) → i < 48 → slice_index result i ≡ fill }
{
    [fill; 48]
}

fn place<const W: usize>(row: &mut [u64], at: usize, words: Simd<u64, W>)
    requires width { IsGangWidth W }
    requires room { at + W ≤ length row.old }
    ensures { row.new ≡ put_chunk at row.old words.entry }
{
    words.copy_to_slice(&mut row[at..]);
}

fn read<const W: usize>(row: &[u64], from: usize) -> Simd<u64, W>
    requires width { IsGangWidth W }
    requires room { from + W ≤ length row.now }
    ensures { result ≡ chunk from W row.now }
{
    Simd::from_slice(&row[from..])
}

// The lanes from `from` on, in a row of 16 times `fill`, the lanes, and `fill` again.
pub(crate) fn window<const W: usize>(fill: u64, words: Simd<u64, W>, from: usize) -> Simd<u64, W>
    requires width { IsGangWidth W }
    requires near { from ≤ 32 }
    ensures { (i : ℕ) → i < W → slice_index result i ≡ windowed fill words.entry (i + from) }
{
    let mut row = filled(fill);
    place(&mut row, 16, words);
    read(&row, from)
}

// The first lanes and then the second, at the start of a row.
pub(crate) fn side_by_side<const W: usize>(first: Simd<u64, W>, second: Simd<u64, W>) -> [u64; 48]
    requires { IsGangWidth W }
    ensures { take (2 * W) result ≡ first.entry ++ second.entry }
{
    let mut row = filled(0);
    place(&mut row, 0, first);
    place(&mut row, W, second);
    row
}

// The lanes from `places` on, and then those before it.
pub(crate) fn turned<const W: usize>(words: Simd<u64, W>, places: usize) -> Simd<u64, W>
    requires width { IsGangWidth W }
    requires near { places < W }
    ensures { (i : ℕ) → i < W → slice_index result i ≡ slice_index words.entry ((i + places) % W) }
{
    read(&side_by_side(words, words), places)
}
