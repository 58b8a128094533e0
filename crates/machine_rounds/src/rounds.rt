//! The next round of a foreach form: it is found, what is left behind it is counted, its lanes go on, and they declare the index
//! variables.
ghost use Rattle.std.specs.Prelude.{◌≡◌, ◌*◌, ◌<◌, ◌≤◌, All, Some, false, length, map, slice_get};
ghost use Rattle.gang_types.specs.Lanes.{no_lane};
ghost use Rattle.gang_types.specs.Masks.{IsGangWidth, lanes_of};
ghost use Rattle.gang_model.specs.Types.Tree.{StepNumber};
ghost use Rattle.typed_tree.specs.Views.{var_view};
ghost use Rattle.codegen.specs.declared.code.IndexCode.{IndexCode as Indexed};
ghost use Rattle.codegen.specs.declared.code.StepCode.TheVariants as code;
ghost use Rattle.machine_states.specs.Effects.{declared_region, region_of};
ghost use Rattle.gang_model.specs.Running.State.{words_for};
ghost use Rattle.machine_words.specs.Views.{region_view};
ghost use Rattle.machine_states.specs.Regions.{CountersOf, OfLevel};
ghost use Rattle.machine_states.specs.Rounds.{counters_behind, lane_words, round_indices};
ghost use Rattle.machine_words.specs.Words.{AreLaid, Writes, left_of, regions_in};
ghost use Rattle.frame_steps.specs.Standing.{AreSound, DoesNext, Ends};
ghost use Rattle.machine_rounds.specs.Taking.{DeclaresAll, IsRoundAt, IsRoundNext, index_views};

use codegen::IndexCode;
use debug_traits::Fault;
use foreach_lowering::{Indices, Round, RoundsLeft};
use frame_steps::{Active, CompiledProgram, begin, kept_rounds, region_of, send_on};
use gang_types::{Mask, Rate};
use machine_words::{Head, LevelPart, MachineWords, Region};
use std::slice;
use typed_tree::Var;
use undo_log::{Timeline, Undone};

/// The next round of a foreach form: what is left behind it is counted, its lanes go on to the body, and they declare the index
/// variables of the form.
///
/// # Errors
///
/// None: it answers as the other steps do.
pub fn take_round<const W: usize, T: Timeline + Drop>(
    compiled: &CompiledProgram,
    active: Active,
    body: usize,
    words: &mut MachineWords<T>,
) -> Result<(), Fault>
    requires sound { AreSound T.history W compiled.now words.old }
    requires does { (form : Indexed) × DoesNext W compiled.now (regions_in T.history W words.old) active (code.Round form body) }
    ensures { Ends T.history W compiled.now words.old result words.new }
{
    let round = next_round::<W, T>(compiled, active, words);
    begin::<W, T>(words, Undone::Step);
    count_left(active, round.left, words);
    send_on::<W, T>(active.frame, active.level, round.lanes, body, words);
    let form = compiled.round_form(active.function, active.step);
    let variables = index_variables(form);
    declare_all(active.frame, variables, round.lanes, &round.indices, words);
    Ok(())
}

/// The next round of the form whose rounds the next step is.
#[inline(always)]
pub fn next_round<const W: usize, T: Timeline + Drop>(
    compiled: &CompiledProgram,
    active: Active,
    words: &MachineWords<T>,
) -> Round<W>
    requires sound { AreSound T.history W compiled.now words.now }
    requires turn { (body : StepNumber) × IsRoundNext W compiled.now (regions_in T.history W words.now) active body }
    ensures { IsRoundAt W compiled.now (regions_in T.history W words.now) active result }
{
    let form = compiled.round_form(active.function, active.step);
    let left = kept_rounds::<W, T>(words, active.frame, active.level, form);
    match left.next_round() {
        Some(round) => round,
        None => unreachable!(),
    }
}

/// Counts what is left behind a round in its level: how much of a grid, or the lanes still to come.
fn count_left<const W: usize, T: Timeline + Drop>(
    active: Active,
    left: RoundsLeft<W>,
    words: &mut MachineWords<T>,
)
    requires width { IsGangWidth W }
    requires laid { AreLaid T.history W words.old }
    requires counted { length (regions_in T.history W words.old (OfLevel active.frame active.level CountersOf)) ≡ 9 }
    requires left { 3 ≤ left_of T.history T.left words.old }
    ensures { Writes T.history T.left W (OfLevel active.frame active.level CountersOf)
        (counters_behind W left.entry (regions_in T.history W words.old (OfLevel active.frame active.level CountersOf))) 3
        words.old words.new }
{
    let counters = Region::Head(active.frame, Head::Level(active.level, LevelPart::Counters));
    match left {
        RoundsLeft::Domain { left, .. } => {
            words.set::<W>(counters, 6, left.leads);
            words.set::<W>(counters, 7, left.rows);
            words.set::<W>(counters, 8, left.columns);
        }
        RoundsLeft::EachLane { lanes } | RoundsLeft::EachValue { lanes, .. } => {
            words.set::<W>(counters, 0, lanes.word::<W>());
        }
    }
}

/// The index variables of a form, in the order of its dimensions.
fn index_variables(form: &IndexCode) -> &[Var]
    ensures { map var_view result.now ≡ index_views form.now }
{
    match form {
        IndexCode::Domain { indices, .. } => indices,
        IndexCode::EachLane { index } | IndexCode::EachValue { index } => slice::from_ref(index),
    }
}

/// Declares the index variables of a round in these lanes: other lanes have 0.
fn declare_all<const W: usize, T: Timeline + Drop>(
    frame: usize,
    variables: &[Var],
    lanes: Mask,
    indices: &Indices<W>,
    words: &mut MachineWords<T>,
)
    requires width { IsGangWidth W }
    requires laid { AreLaid T.history W words.old }
    requires few { length variables.now ≤ 3 }
    requires sized { All (λ x. length (regions_in T.history W words.old (region_of frame x.id)) ≡ W) variables.now }
    requires lane { no_lane (lanes_of W lanes) ≡ false }
    requires left { 3 * W ≤ left_of T.history T.left words.old }
    ensures { DeclaresAll T.history T.left W frame (lanes_of W lanes) (round_indices W (map var_view variables.now) indices.now) (3 * W) words.old words.new }
{
    for (dimension, variable) in variables.iter().enumerate() {
        let region = region_of(frame, variable.id);
        let values = index_words(*indices, dimension);
        declare_index(region, variable.rate, lanes, values, words);
    }
}

/// Declares an index variable, whose words these are.
fn declare_index<const W: usize, T: Timeline + Drop>(
    region: Region,
    rate: Rate,
    lanes: Mask,
    values: [u64; W],
    words: &mut MachineWords<T>,
)
    requires width { IsGangWidth W }
    requires laid { AreLaid T.history W words.old }
    requires room { words_for W rate ≤ length (regions_in T.history W words.old (region_view region)) }
    requires most { length (regions_in T.history W words.old (region_view region)) ≤ W }
    requires lane { no_lane (lanes_of W lanes) ≡ false }
    requires left { W ≤ left_of T.history T.left words.old }
    ensures { Writes T.history T.left W (region_view region)
        (declared_region rate (lanes_of W lanes) values.entry (regions_in T.history W words.old (region_view region))) W
        words.old words.new }
{
    words.declare::<W>(region, rate, lanes, values);
}

/// A word for each lane: of the index variable of a dimension, or of the only one.
fn index_words<const W: usize>(indices: Indices<W>, dimension: usize) -> [u64; W]
    requires { dimension < 3 }
    ensures { slice_get (lane_words W indices.entry) dimension ≡ Some result }
{
    match indices {
        Indices::Varying(words) => words[dimension],
        Indices::Uniform(word) => [word; W],
    }
}
