//! Calls: a frame begins for the lanes of the call.
ghost use Rattle.std.specs.Prelude.{◌≡◌, ℕ, ◌+◌, ◌*◌, ◌<◌, ◌≤◌, false, List, Some, length};
ghost use Rattle.gang_types.specs.Lanes.{no_lane};
ghost use Rattle.gang_types.specs.Masks.{IsGangWidth, lanes_of};
ghost use Rattle.gang_model.specs.Types.Tree.{Arg, Function as ModelFunction};
ghost use Rattle.codegen.specs.Codes.{Fit};
ghost use Rattle.codegen.specs.declared.code.StepCode.TheVariants as code;
ghost use Rattle.mask_states.specs.Masked.{Masked};
ghost use Rattle.machine_states.specs.Regions.{OfLocal};
ghost use Rattle.machine_words.specs.Words.{AreLaid, Writes, left_of, regions_in};
ghost use Rattle.typed_tree.specs.declared.statements.ResultFor.{ResultFor as TypedResultFor};
ghost use Rattle.frame_steps.specs.Compiled.{IsCompiled, function_of};
ghost use Rattle.frame_steps.specs.Parts.{HasNextPoint};
ghost use Rattle.frame_steps.specs.Standing.{AreSound, DoesNext, Ends, IsShown};
ghost use Rattle.machine_steps.specs.Calls.{AreParametersDeclared, ArePassed, BeginsFrame, IsArgumentAnswer, IsArgumentAt, parameter_region};

use arrayvec::ArrayVec;
use codegen::ArgCode;
use debug_traits::Fault;
use expression_runs::Stacks;
use frame_steps::{Active, CompiledProgram, begin, named_part, value_of};
use gang_memory::MOST_FRAMES;
use gang_types::{FaultName, Mask};
use machine_words::{Head, LevelPart, MachineWords, Region, view_words};
use undo_log::{Timeline, Undone};

/// The most arguments of a call.
const MOST_ARGS: usize = 8;

/// The words of a call's arguments.
type Arguments<const W: usize> = ArrayVec<[u64; W], MOST_ARGS>;

/// A call: its arguments are evaluated, and a frame begins for its lanes, unless 64 frames are there. The lanes go on when it is
/// left.
pub(crate) fn enter<const W: usize, T: Timeline + Drop>(
    compiled: &CompiledProgram,
    active: Active,
    function: usize,
    args: &Vec<ArgCode>,
    words: &mut MachineWords<T>,
    stacks: &mut Stacks<W>,
) -> Result<(), Fault>
    requires sound { AreSound T.history W compiled.now words.old }
    requires does { (result_for : TypedResultFor) × (next : ℕ) × DoesNext W compiled.now (regions_in T.history W words.old) active (code.Enter function args.now result_for next) }
    ensures { Ends T.history W compiled.now words.old result words.new }
{
    let given = arguments(compiled, active, args, words, stacks)?;
    if active.frame + 1 == MOST_FRAMES {
        return Err(Fault {
            name: FaultName::CallDepth,
            lane: active.lanes.lowest::<W>(),
        });
    }
    begin::<W, T>(words, Undone::Step);
    declare_parameters::<W, T>(active.frame + 1, args, &given, active.lanes, words);
    begin_frame::<W, T>(compiled, active.frame + 1, function, active.lanes, words);
    Ok(())
}

/// The words of a call's arguments, from left to right.
fn arguments<const W: usize, T: Timeline + Drop>(
    compiled: &CompiledProgram,
    active: Active,
    args: &[ArgCode],
    words: &MachineWords<T>,
    stacks: &mut Stacks<W>,
) -> Result<Arguments<W>, Fault>
    requires sound { AreSound T.history W compiled.now words.now }
    requires point { HasNextPoint W compiled.now (regions_in T.history W words.now) active }
    requires fits { (meant : List Arg) × Fit (IsArgumentAt W compiled.now (regions_in T.history W words.now) active) args.now meant }
    requires few { length args.now ≤ 8 }
    ensures { (masked : Masked) (meant : List Arg) → IsShown T.history W compiled.now words.now masked
        → Fit (IsArgumentAt W compiled.now (regions_in T.history W words.now) active) args.now meant
        → ArePassed W (regions_in T.history W words.now) meant (lanes_of W active.lanes) masked.state result }
{
    let mut given = ArrayVec::new();
    for arg in args {
        given.push(argument(compiled, active, arg, words, stacks)?);
    }
    Ok(given)
}

/// The words of an argument: its values in the lanes of the next step, or those that keep the part of an array that is passed.
fn argument<const W: usize, T: Timeline + Drop>(
    compiled: &CompiledProgram,
    active: Active,
    arg: &ArgCode,
    words: &MachineWords<T>,
    stacks: &mut Stacks<W>,
) -> Result<[u64; W], Fault>
    requires sound { AreSound T.history W compiled.now words.now }
    requires point { HasNextPoint W compiled.now (regions_in T.history W words.now) active }
    requires fits { (y : Arg) × IsArgumentAt W compiled.now (regions_in T.history W words.now) active arg.now y }
    ensures { (masked : Masked) (y : Arg) → IsShown T.history W compiled.now words.now masked
        → IsArgumentAt W compiled.now (regions_in T.history W words.now) active arg.now y
        → IsArgumentAnswer W (regions_in T.history W words.now) (lanes_of W active.lanes) masked.state y result }
{
    match arg {
        ArgCode::Value { value, .. } => value_of(compiled, active, value, words, stacks),
        ArgCode::Array { array, from } => {
            let part = named_part(compiled, active, *array, from, words, stacks)?;
            Ok(view_words(part))
        }
    }
}

/// Declares the parameters of a frame that begins.
fn declare_parameters<const W: usize, T: Timeline + Drop>(
    frame: usize,
    args: &[ArgCode],
    given: &[[u64; W]],
    lanes: Mask,
    words: &mut MachineWords<T>,
)
    requires width { IsGangWidth W }
    requires laid { AreLaid T.history W words.old }
    requires each { length given.now ≡ length args.now }
    requires sized { (k : ℕ) → k < length args.now → length (regions_in T.history W words.old (OfLocal frame k)) ≡ W }
    requires lane { no_lane (lanes_of W lanes) ≡ false }
    requires left { length args.now * W ≤ left_of T.history T.left words.old }
    ensures { AreParametersDeclared T.history T.left W frame (length args.now) args.now given.now (lanes_of W lanes) words.old words.new }
{
    for (number, (arg, values)) in args.iter().zip(given).enumerate() {
        declare_parameter::<W, T>(frame, number, arg, *values, lanes, words);
    }
}

/// Declares a parameter: a scalar has its values in the lanes, an array the words that keep the part it stands for.
fn declare_parameter<const W: usize, T: Timeline + Drop>(
    frame: usize,
    number: usize,
    arg: &ArgCode,
    values: [u64; W],
    lanes: Mask,
    words: &mut MachineWords<T>,
)
    requires width { IsGangWidth W }
    requires laid { AreLaid T.history W words.old }
    requires whole { length (regions_in T.history W words.old (OfLocal frame number)) ≡ W }
    requires lane { no_lane (lanes_of W lanes) ≡ false }
    requires left { W ≤ left_of T.history T.left words.old }
    ensures { Writes T.history T.left W (OfLocal frame number)
        (parameter_region arg.now (lanes_of W lanes) values.entry (regions_in T.history W words.old (OfLocal frame number))) W words.old words.new }
{
    let region = Region::Local(frame, number);
    match arg {
        ArgCode::Value { parameter, .. } => {
            words.declare::<W>(region, parameter.rate, lanes, values)
        }
        ArgCode::Array { .. } => words.set_lanes::<W>(region, Mask::all::<W>(), values),
    }
}

/// Begins a frame of a function for lanes, which wait for its first step; the others wait for its closing brace. No foreach form has
/// begun in it.
pub(crate) fn begin_frame<const W: usize, T: Timeline + Drop>(
    compiled: &CompiledProgram,
    frame: usize,
    function: usize,
    lanes: Mask,
    words: &mut MachineWords<T>,
)
    requires width { IsGangWidth W }
    requires compiled { IsCompiled compiled.now }
    requires laid { AreLaid T.history W words.old }
    requires there { frame < 64 }
    requires runs { (f : ModelFunction) × (function_of compiled.now function ≡ Some f) }
    requires left { W + 5 ≤ left_of T.history T.left words.old }
    ensures { (f : ModelFunction) → function_of compiled.now function ≡ Some f
        → BeginsFrame T.history T.left W frame function f (lanes_of W lanes) words.old words.new }
{
    let closing = compiled.closing(function) as u64;
    let entry = compiled.entry(function) as u64;
    let mut numbers = [closing; W];
    for lane in 0..W {
        if lanes.has::<W>(lane) {
            numbers[lane] = entry;
        }
    }
    words.set::<W>(Region::Head(frame, Head::Function), 0, function as u64);
    words.set::<W>(Region::Head(frame, Head::Lanes), 0, lanes.word::<W>());
    words.set::<W>(Region::Head(frame, Head::Returned), 0, 0);
    words.set::<W>(Region::Head(frame, Head::Open), 0, 0);
    words.set_lanes::<W>(
        Region::Head(frame, Head::Level(0, LevelPart::Numbers)),
        Mask::all::<W>(),
        numbers,
    );
    words.set::<W>(Region::Depth, 0, frame as u64 + 1);
}
