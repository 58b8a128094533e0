//! Shares of the lanes.
ghost use Rattle.std.specs.Prelude.{◌≡◌, ◌<◌, ◌^◌, ◌≤◌};
ghost use Rattle.lane_counts.specs.Shares.{lost, share, share_of};

use crate::counts::Counts;

/// How many of the places for lanes no lane takes: each step has one for each lane of the gang.
pub fn lost(counts: Counts, width: usize) -> u64
    ensures { counts.steps < 2 ^ 48 → width ≤ 16 → result ≡ lost counts.steps counts.lane_steps width }
{
    let slots = counts.steps.saturating_mul(width as u64);
    slots.saturating_sub(counts.lane_steps)
}

/// The share of the places for lanes that lanes take, in thousandths, rounded down.
pub fn share(counts: Counts, width: usize) -> u64
    ensures { counts.steps < 2 ^ 48 → counts.lane_steps < 2 ^ 53 → width ≤ 16 → result ≡ share counts.steps counts.lane_steps width }
{
    let slots = counts.steps.saturating_mul(width as u64);
    share_of(counts.lane_steps, slots)
}

/// The share that a part is of a whole, in thousandths, rounded down; all of it where the whole is nothing.
pub fn share_of(part: u64, whole: u64) -> u64
    ensures { part < 2 ^ 53 → result ≡ share_of part whole }
{
    let thousandths = part.saturating_mul(1000);
    if whole == 0 {
        1000
    } else {
        thousandths / whole
    }
}
