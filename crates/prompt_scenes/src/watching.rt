//! Watches of variables of frames, and of what sets a variable: how they are made, and when they end.
ghost use Rattle.std.specs.Prelude.{◌≡◌, is_none, false};
ghost use Rattle.gang_model.specs.Debugger.Debugger as model;
ghost use Rattle.gang_model.specs.Debugger.Debugger.{Debugger, Setting};
ghost use Rattle.conditional_stops.specs.Views.{table_of};
ghost use Rattle.debug_commands.specs.Views.{option_view, target_view};
ghost use Rattle.prompt_scenes.specs.FrameWatches as frames;

use conditional_stops::{Conditions, LONGEST_NAME, SetPart, SetPlace, Watch};
use debug_commands::{Command, Target, read_command};
use debug_traits::{FramedMachine, Shown};
use gang_types::{Rate, VarId};
use prompt_lines::{Kind, PromptLine, is_alone};

/// The variable of the frame at a depth that a target watches, if it is of a function.
pub fn local_named<M: FramedMachine>(target: Target<'_>, depth: usize, machine: &M) -> Option<VarId>
    ensures { (s : Setting) (d : Debugger) → M.stands machine.now s d → result ≡ frames.local_named s d depth (target_view target.entry) }
{
    let shown = machine.find_at(depth, target.name)?;
    if can_watch(shown, target) {
        Some(shown.id)
    } else {
        None
    }
}

/// Whether a target can be watched, where its name stands for a variable of a function: a scalar, a lane or an element.
fn can_watch(shown: Shown, target: Target<'_>) -> bool
    ensures { result ≡ frames.can_watch shown.id shown.is_array shown.rate shown.count (target_view target.entry) }
{
    is_local(shown.id) && is_part(shown, target.at) && target.name.len() <= LONGEST_NAME
}

/// Whether a variable is of a function.
fn is_local(id: VarId) -> bool
    ensures { result ≡ frames.is_local id }
{
    matches!(id, VarId::Local(_))
}

/// Whether this is a scalar, a lane or an element.
fn is_part(shown: Shown, at: Option<u32>) -> bool
    ensures { result ≡ is_none (model.bad_part false at shown.is_array shown.rate shown.count) }
{
    match at {
        None => !shown.is_array,
        Some(_) if !shown.is_array && shown.rate == Rate::Uniform => false,
        Some(index) => (index as usize) < shown.count,
    }
}

/// What a target means, in the frame at a depth or of the file, to watch what sets it: a scalar, an array or an element.
pub fn place_named<M: FramedMachine>(
    target: Target<'_>,
    depth: usize,
    machine: &M,
) -> Option<SetPlace>
    ensures { (s : Setting) (d : Debugger) → M.stands machine.now s d → result ≡ frames.place_named s d depth (target_view target.entry) }
{
    let shown = machine.find_at(depth, target.name)?;
    let part = part_named(shown, target.at)?;
    if target.name.len() <= LONGEST_NAME {
        Some(SetPlace { id: shown.id, part })
    } else {
        None
    }
}

/// What of a variable is meant: all, or an element that is there. A lane of a scalar is none of it.
fn part_named(shown: Shown, at: Option<u32>) -> Option<SetPart>
    ensures { result ≡ frames.part_named shown.is_array shown.count at }
{
    match at {
        None if shown.is_array => Some(SetPart::Array),
        None => Some(SetPart::Scalar),
        Some(index) if shown.is_array && (index as usize) < shown.count => {
            Some(SetPart::Element(index))
        }
        Some(_) => None,
    }
}

/// The depth of the frame whose variable it is that is in sight in the frame at a depth, 0 for one of the file.
pub(crate) fn own_depth(depth: usize, id: VarId) -> usize
    ensures { result ≡ frames.own_depth depth id }
{
    match id {
        VarId::File(_) => 0,
        VarId::Local(_) => depth,
    }
}

/// The depth up to which frames are known to be those of before, after a line that led to this depth.
pub fn known(line: &PromptLine, depth: usize) -> usize
    ensures { result ≡ frames.known line.now.kind line.now.text.items depth }
{
    let text = line.text.as_slice();
    match line.kind {
        Kind::Own => known_after(read_command(text), depth),
        Kind::Run | Kind::Start if is_alone(text) => 0,
        Kind::Until if !is_alone(text) => 1,
        Kind::Goto | Kind::Restart | Kind::Last => 1,
        _ => depth,
    }
}

/// The same after a command.
fn known_after(command: Option<Command<'_>>, depth: usize) -> usize
    ensures { result ≡ frames.known_after (option_view command.entry) depth }
{
    match command {
        Some(Command::Step(count)) => if_one(count, depth),
        Some(Command::Next(count)) => if_one(count, depth),
        Some(Command::ReverseStep(count)) => if_one(count, depth),
        Some(Command::ReverseNext(count)) => if_one(count, depth),
        _ => depth,
    }
}

/// The depth where one move was made at most, else that of the entry's frame.
fn if_one(count: u32, depth: usize) -> usize
    ensures { result ≡ frames.if_one count depth }
{
    if count <= 1 { depth } else { 1 }
}

/// Forgets what was said of the watches that are deeper.
pub(crate) fn forget_deeper(watches: &[Watch], known: usize, conditions: &mut Conditions)
    ensures { table_of conditions.new ≡ frames.forgotten_deeper known watches.now (table_of conditions.old) }
{
    for watch in watches {
        forget_if(watch, known, conditions);
    }
}

/// Forgets what was said of a watch, where it is deeper.
fn forget_if(watch: &Watch, known: usize, conditions: &mut Conditions)
    ensures { table_of conditions.new ≡ frames.forgotten_if known watch.now (table_of conditions.old) }
{
    if known < watch.depth() {
        conditions.forget(watch.number());
    }
}
