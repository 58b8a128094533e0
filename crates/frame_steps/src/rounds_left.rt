//! The rounds that a foreach form has left, as the words of its level keep them.
ghost use Rattle.std.specs.Prelude.{◌≡◌, ◌+◌, ◌*◌, ◌<◌, ◌≤◌, List, length, slice_index};
ghost use Rattle.gang_types.specs.declared.types.IntType.TheVariants.{Int32};
ghost use Rattle.gang_types.specs.Masks.{IsGangWidth, lanes_of, lanes_of_word};
ghost use Rattle.gang_types.specs.Values.{value_of};
ghost use Rattle.gang_model.specs.Running.Lanes.{at};
ghost use Rattle.gang_model.specs.Types.Tree.{Dimension, RoundsOf};
ghost use Rattle.foreach_lowering.specs.Views.{bounds_view, grid_view, range_view};
ghost use Rattle.machine_states.specs.Levels.{bounds_in, left_in};
ghost use Rattle.machine_words.specs.Views.{region_view};
ghost use Rattle.machine_words.specs.Words.{AreLaid, regions_in};
ghost use Rattle.frame_steps.specs.Rounds.{AreRoundsOf, KeepsRounds};

use codegen::IndexCode;
use foreach_lowering::{Bounds, Domain, Grid, Range, RoundsLeft};
use gang_types::Mask;
use machine_words::{Head, LevelPart, MachineWords, Region};
use undo_log::Timeline;

/// The rounds left of a form with these index variables that has begun in a level of a frame.
#[inline(always)]
pub fn kept_rounds<const W: usize, T: Timeline + Drop>(
    words: &MachineWords<T>,
    frame: usize,
    level: usize,
    form: &IndexCode,
) -> RoundsLeft<W>
    requires width { IsGangWidth W }
    requires laid { AreLaid T.history W words.now }
    requires keeps { (of : RoundsOf) × KeepsRounds W (regions_in T.history W words.now) frame level form.now of }
    ensures { (of : RoundsOf) → KeepsRounds W (regions_in T.history W words.now) frame level form.now of
        → AreRoundsOf W (regions_in T.history W words.now) frame level of result }
{
    let counters = Region::Head(frame, Head::Level(level, LevelPart::Counters));
    match form {
        IndexCode::Domain { order, indices } => RoundsLeft::Domain {
            domain: Domain {
                order: *order,
                bounds: bounds_of(&bounds_kept::<W, T>(words, counters), indices.len()),
            },
            left: grid_left::<W, T>(words, counters),
        },
        IndexCode::EachLane { .. } => RoundsLeft::EachLane {
            lanes: lanes_left::<W, T>(words, counters),
        },
        IndexCode::EachValue { .. } => RoundsLeft::EachValue {
            lanes: lanes_left::<W, T>(words, counters),
            values: words.lanes::<W>(Region::Head(frame, Head::Level(level, LevelPart::Values))),
        },
    }
}

/// The words of low and high of each of three dimensions.
#[inline(always)]
fn bounds_kept<const W: usize, T: Timeline + Drop>(
    words: &MachineWords<T>,
    counters: Region,
) -> [u64; 6]
    requires width { IsGangWidth W }
    requires laid { AreLaid T.history W words.now }
    requires whole { length (regions_in T.history W words.now (region_view counters)) ≡ 9 }
    ensures { (ds : List Dimension) → (1 ≤ length ds) × (length ds ≤ 3) → bounds_in ds result ≡ bounds_in ds (regions_in T.history W words.now (region_view counters)) }
{
    [
        words.word::<W>(counters, 0),
        words.word::<W>(counters, 1),
        words.word::<W>(counters, 2),
        words.word::<W>(counters, 3),
        words.word::<W>(counters, 4),
        words.word::<W>(counters, 5),
    ]
}

/// The bounds of so many dimensions by their words: low and high of each of three, one behind the other.
#[inline(always)]
pub fn bounds_of(words: &[u64; 6], dimensions: usize) -> Bounds
    requires { (1 ≤ dimensions) × (dimensions ≤ 3) }
    ensures { (ds : List Dimension) → length ds ≡ dimensions → bounds_view result ≡ bounds_in ds words.now }
{
    let first = range(words, 0);
    if dimensions == 1 {
        return Bounds::One(first);
    }
    let second = range(words, 1);
    if dimensions == 2 {
        return Bounds::Two(first, second);
    }
    Bounds::Three(first, second, range(words, 2))
}

/// Those of one dimension.
#[inline(always)]
fn range(words: &[u64; 6], dimension: usize) -> Range
    requires { dimension < 3 }
    ensures { range_view result ≡ (value_of Int32 (slice_index words.now (2 * dimension)), value_of Int32 (slice_index words.now (2 * dimension + 1))) }
{
    Range {
        low: words[2 * dimension].cast_signed(),
        high: words[2 * dimension + 1].cast_signed(),
    }
}

/// How much of the grid of a domain is left.
#[inline(always)]
fn grid_left<const W: usize, T: Timeline + Drop>(words: &MachineWords<T>, counters: Region) -> Grid
    requires width { IsGangWidth W }
    requires laid { AreLaid T.history W words.now }
    requires whole { length (regions_in T.history W words.now (region_view counters)) ≡ 9 }
    ensures { grid_view result ≡ left_in (regions_in T.history W words.now (region_view counters)) }
{
    Grid {
        leads: words.word::<W>(counters, 6),
        rows: words.word::<W>(counters, 7),
        columns: words.word::<W>(counters, 8),
    }
}

/// The lanes still to come.
fn lanes_left<const W: usize, T: Timeline + Drop>(words: &MachineWords<T>, counters: Region) -> Mask
    requires width { IsGangWidth W }
    requires laid { AreLaid T.history W words.now }
    requires whole { length (regions_in T.history W words.now (region_view counters)) ≡ 9 }
    ensures { lanes_of W result ≡ lanes_of_word W (at (regions_in T.history W words.now (region_view counters)) 0) }
{
    Mask::from_word::<W>(words.word::<W>(counters, 0))
}
