//! The head of a foreach form: what the form keeps is computed, and then it begins.
ghost use Rattle.std.specs.Prelude.{◌≡◌, ◌+◌, ◌*◌, ◌<◌, ◌≤◌, List, false, length, slice_get, slice_index};
ghost use Rattle.gang_types.specs.Lanes.{no_lane};
ghost use Rattle.gang_types.specs.Masks.{IsGangWidth, lanes_of, lanes_of_word};
ghost use Rattle.gang_model.specs.Types.Tree.{Dimension, RoundsOf};
ghost use Rattle.mask_states.specs.Masked.{Masked};
ghost use Rattle.foreach_lowering.specs.Law.{first_kept};
ghost use Rattle.codegen.specs.declared.code.StepCode.TheVariants as code;
ghost use Rattle.machine_words.specs.Ranges.{levels_of};
ghost use Rattle.machine_words.specs.Words.{AreLaid, left_of, regions_in};
ghost use Rattle.frame_steps.specs.Standing.{AreSound, DoesNext, Ends, IsAnswer, IsShown};
ghost use Rattle.frame_steps.specs.Written.{Sets};
ghost use Rattle.machine_rounds.specs.Beginning.{AreDimensionsAt, BeginsForm, IsFirst, KeepsDomain, bounds_at, bounds_words, opened_in};

use codegen::{DimensionCode, FormCode};
use debug_traits::Fault;
use expression_runs::Stacks;
use foreach_lowering::{Domain, Order};
use frame_steps::{Active, CompiledProgram, begin, bounds_of, send_on, value_of};
use gang_types::Mask;
use machine_words::{Head, LevelPart, MachineWords, Region};
use undo_log::{Timeline, Undone};

/// The words of what a form keeps when it begins: what it counts, and the values of `foreach_unique`, 0 for the other forms.
#[derive(Clone, Copy)]
pub(crate) struct FirstWords<const W: usize> {
    pub(crate) counters: [u64; 9],
    pub(crate) values: [u64; W],
}

/// The head of a foreach form: its lanes go on behind the form, which begins for the whole gang.
///
/// # Errors
///
/// The first fault of its bounds or of its value, with its lane; then no word is changed and nothing recorded.
pub fn begin_form<const W: usize, T: Timeline + Drop>(
    compiled: &CompiledProgram,
    active: Active,
    form: &FormCode,
    rounds: usize,
    next: usize,
    words: &mut MachineWords<T>,
    stacks: &mut Stacks<W>,
) -> Result<(), Fault>
    requires sound { AreSound T.history W compiled.now words.old }
    requires does { DoesNext W compiled.now (regions_in T.history W words.old) active (code.Begin form.now rounds next) }
    ensures { Ends T.history W compiled.now words.old result words.new }
{
    let first = first_words(compiled, active, form, words, stacks)?;
    begin::<W, T>(words, Undone::Step);
    open_level(active, rounds, next, first, words);
    Ok(())
}

/// What a form keeps when it begins. Bounds are evaluated dimension by dimension, the low one first.
///
/// # Errors
///
/// The first fault with its lane.
fn first_words<const W: usize, T: Timeline + Drop>(
    compiled: &CompiledProgram,
    active: Active,
    form: &FormCode,
    words: &MachineWords<T>,
    stacks: &mut Stacks<W>,
) -> Result<FirstWords<W>, Fault>
    requires sound { AreSound T.history W compiled.now words.now }
    requires begins { (of : RoundsOf) × BeginsForm W compiled.now (regions_in T.history W words.now) active form.now of }
    ensures { (masked : Masked) (of : RoundsOf) → IsShown T.history W compiled.now words.now masked
        → BeginsForm W compiled.now (regions_in T.history W words.now) active form.now of
        → IsFirst W of result (first_kept of (lanes_of W active.lanes) masked.state) }
{
    match form {
        FormCode::Domain { order, dimensions } => {
            let bounds = all_bounds(compiled, active, dimensions, words, stacks)?;
            Ok(FirstWords {
                counters: domain_counters::<W>(*order, dimensions.len(), &bounds),
                values: [0; W],
            })
        }
        FormCode::EachLane => Ok(FirstWords {
            counters: lane_counters::<W>(active.lanes),
            values: [0; W],
        }),
        FormCode::EachValue { value } => {
            let values = value_of(compiled, active, value, words, stacks)?;
            Ok(FirstWords {
                counters: lane_counters::<W>(active.lanes),
                values,
            })
        }
    }
}

/// Low and high of each of three dimensions, 0 of one that is not there.
fn all_bounds<const W: usize, T: Timeline + Drop>(
    compiled: &CompiledProgram,
    active: Active,
    dimensions: &[DimensionCode],
    words: &MachineWords<T>,
    stacks: &mut Stacks<W>,
) -> Result<[u64; 6], Fault>
    requires sound { AreSound T.history W compiled.now words.now }
    requires lane { no_lane (lanes_of W active.lanes) ≡ false }
    requires are { (ds : List Dimension) × AreDimensionsAt W compiled.now (regions_in T.history W words.now) active dimensions.now ds }
    ensures { (masked : Masked) (ds : List Dimension) → IsShown T.history W compiled.now words.now masked
        → AreDimensionsAt W compiled.now (regions_in T.history W words.now) active dimensions.now ds
        → IsAnswer result (bounds_words ds (lanes_of W active.lanes) masked.state) }
{
    let first = bounds_at(compiled, active, dimensions, 0, words, stacks)?;
    let second = bounds_at(compiled, active, dimensions, 1, words, stacks)?;
    let third = bounds_at(compiled, active, dimensions, 2, words, stacks)?;
    Ok([first.0, first.1, second.0, second.1, third.0, third.1])
}

/// Low and high of a dimension, which are those of the lowest lane; 0 of one that is not there.
fn bounds_at<const W: usize, T: Timeline + Drop>(
    compiled: &CompiledProgram,
    active: Active,
    dimensions: &[DimensionCode],
    number: usize,
    words: &MachineWords<T>,
    stacks: &mut Stacks<W>,
) -> Result<(u64, u64), Fault>
    requires sound { AreSound T.history W compiled.now words.now }
    requires lane { no_lane (lanes_of W active.lanes) ≡ false }
    requires are { (ds : List Dimension) × AreDimensionsAt W compiled.now (regions_in T.history W words.now) active dimensions.now ds }
    ensures { (masked : Masked) (ds : List Dimension) → IsShown T.history W compiled.now words.now masked
        → AreDimensionsAt W compiled.now (regions_in T.history W words.now) active dimensions.now ds
        → IsAnswer result (bounds_at (slice_get ds number) (lanes_of W active.lanes) masked.state) }
{
    if number >= dimensions.len() {
        return Ok((0, 0));
    }
    let dimension = &dimensions[number];
    let low = value_of(compiled, active, &dimension.low, words, stacks)?;
    let high = value_of(compiled, active, &dimension.high, words, stacks)?;
    let lane = active.lanes.lowest::<W>();
    Ok((low[lane], high[lane]))
}

/// The counters of a domain of so many dimensions with these bounds, of which all rounds are left.
fn domain_counters<const W: usize>(order: Order, dimensions: usize, words: &[u64; 6]) -> [u64; 9]
    requires width { IsGangWidth W }
    requires few { (1 ≤ dimensions) × (dimensions ≤ 3) }
    ensures { (ds : List Dimension) → length ds ≡ dimensions → KeepsDomain W order ds words.now result }
{
    let bounds = bounds_of(words, dimensions);
    let left = Domain { order, bounds }.grid::<W>().all_left();
    [
        words[0],
        words[1],
        words[2],
        words[3],
        words[4],
        words[5],
        left.leads,
        left.rows,
        left.columns,
    ]
}

/// The counters of a form over these lanes, all of which are still to come.
fn lane_counters<const W: usize>(lanes: Mask) -> [u64; 9]
    requires { IsGangWidth W }
    ensures { lanes_of_word W (slice_index result 0) ≡ lanes_of W lanes }
{
    [lanes.word::<W>(), 0, 0, 0, 0, 0, 0, 0, 0]
}

/// Writes that lanes of a step go on behind a form, and that the form begins in the level above theirs.
fn open_level<const W: usize, T: Timeline + Drop>(
    active: Active,
    rounds: usize,
    next: usize,
    first: FirstWords<W>,
    words: &mut MachineWords<T>,
)
    requires width { IsGangWidth W }
    requires laid { AreLaid T.history W words.old }
    requires frame { active.frame < 64 }
    requires level { active.level < levels_of words.old.layout }
    requires lane { no_lane (lanes_of W active.lanes) ≡ false }
    requires left { 3 * W + 11 ≤ left_of T.history T.left words.old }
    ensures { Sets T.history T.left W (opened_in W active rounds next first.entry (regions_in T.history W words.old)) (3 * W + 11) words.old words.new }
{
    let frame = active.frame;
    let level = active.level + 1;
    send_on::<W, T>(frame, active.level, active.lanes, next, words);
    words.set::<W>(
        Region::Head(frame, Head::Level(level, LevelPart::End)),
        0,
        rounds as u64,
    );
    words.fill::<W>(
        Region::Head(frame, Head::Level(level, LevelPart::Numbers)),
        &[rounds as u64; W],
    );
    words.fill::<W>(
        Region::Head(frame, Head::Level(level, LevelPart::Counters)),
        &first.counters,
    );
    words.fill::<W>(
        Region::Head(frame, Head::Level(level, LevelPart::Values)),
        &first.values,
    );
    words.set::<W>(Region::Head(frame, Head::Open), 0, level as u64);
}
