//! The value that a function has returned, by the variable that got it.
ghost use Rattle.std.specs.Prelude.{◌≡◌, ◌++◌, Some, codes, false, option_map, slice_get, true, IfOk};
ghost use Rattle.gang_model.specs.Types.Tree.{Variable};
ghost use Rattle.gang_model.specs.Debugger.Debugger.{Debugger, Setting, now};
ghost use Rattle.gang_model.specs.Debugger.Debugger as model;
ghost use Rattle.debug_commands.specs.Views.{command_view};
ghost use Rattle.debug_session.specs.Sessions.{StandsFor};
ghost use Rattle.debug_traits.specs.Frames.{IsShownAt, spot_at};
ghost use Rattle.prompt_lines.specs.Readings.{bytes_option};
ghost use Rattle.prompt_scenes.specs.Given as given;
ghost use Rattle.value_digits.specs.declared.digits.Digits.TheVariants as in_digits;
ghost use Rattle.prompt_texts.specs.Items.{told_text};
ghost use Rattle.prompt_texts.specs.Shown.{Puts};
ghost use Rattle.prompt_values.specs.Returned as spec;

use crate::values::NO_MEMORY;
use call_results::{GivenResult, given_at};
use debug_answers::Answer;
use debug_commands::Command;
use debug_session::Session;
use debug_traits::{AnswerWriter, Shown};
use frame_expressions::ExpressionMachine;
use gang_types::{Mask, Spot, VarId};
use prompt_scenes::{Scene, depth, is_here};
use prompt_texts::{Page, Told, put_told, told_variable};
use std::alloc::AllocError;
use typed_tree::{Function, Program};
use value_digits::Digits;

/// The widest gang.
const WIDEST: usize = 16;

/// What stands before the value.
const RETURNED: &[u8] = b"Value returned:";

/// What a call gives to a variable: the function that made the call, and its lanes.
#[derive(Clone, Copy)]
pub struct Awaited {
    caller: usize,
    lanes: Mask,
    given: GivenResult,
}

/// What is given to a variable where `finish` leaves the top frame.
pub fn awaited_by<M: ExpressionMachine>(
    command: Command<'_>,
    session: &Session<M>,
) -> Option<Awaited>
    ensures { (s : Setting) (d : Debugger) → StandsFor M.stands session.now s d
        → spec.AwaitsBy s d (command_view command.entry) result }
{
    match command {
        Command::Finish => awaited_at(depth(session).saturating_sub(1), session.machine()),
        Command::Step(_)
        | Command::Next(_)
        | Command::ReverseStep(_)
        | Command::ReverseNext(_)
        | Command::Continue
        | Command::ReverseFinish
        | Command::ReverseContinue
        | Command::Undo
        | Command::Print(_)
        | Command::Set { .. }
        | Command::Break(_)
        | Command::Watch(_)
        | Command::Delete(_)
        | Command::SetHistory(_)
        | Command::InfoBreakpoints
        | Command::InfoLocals
        | Command::Backtrace
        | Command::Nothing
        | Command::Quit => None,
    }
}

/// What is given to a variable by the call at which the frame at a depth stands.
fn awaited_at<M: ExpressionMachine>(depth: usize, machine: &M) -> Option<Awaited>
    ensures { (s : Setting) (d : Debugger) → M.stands machine.now s d → spec.AwaitsAt s d depth result }
{
    match machine.spot(depth) {
        Some(spot) => awaited_of(spot, depth, machine),
        None => None,
    }
}

/// What is given to a variable by the call at a spot, at which the frame at a depth stands.
fn awaited_of<M: ExpressionMachine>(spot: Spot, depth: usize, machine: &M) -> Option<Awaited>
    ensures { (s : Setting) (d : Debugger) → M.stands machine.now s d → spot_at s.program depth (now s d) ≡ Some spot
        → spec.AwaitsAt s d depth result }
{
    match given_at(machine.program(), spot) {
        Some(given) => Some(Awaited {
            caller: spot.function.0,
            lanes: called_lanes(depth, machine),
            given,
        }),
        None => None,
    }
}

/// The lanes of the call that the frame at a depth made; all of them where it made none.
fn called_lanes<M: ExpressionMachine>(depth: usize, machine: &M) -> Mask
    ensures { (s : Setting) (d : Debugger) → M.stands machine.now s d → spec.AreCalled s d depth result }
{
    match machine.call(depth) {
        Some(call) => call.lanes,
        None => Mask::all::<WIDEST>(),
    }
}

/// Writes a line with the value that was returned, where a move has left the frame and the variable that got it is in scope; or that
/// there is no memory to show it.
pub fn tell_returned<M: ExpressionMachine, O: AnswerWriter + Drop>(
    awaited: Option<Awaited>,
    answer: &Answer<'_>,
    scene: Scene<'_>,
    session: &Session<M>,
    page: &mut Page<O>,
)
    ensures { (s : Setting) (d : Debugger) → StandsFor M.stands session.now s d
        → spec.WritesIf (λ text. Puts text page.old.has_failed page.new.has_failed (O.written page.old.writer) (O.written page.new.writer)) s d awaited (given.is_here answer.now) scene.entry.layout }
{
    match awaited {
        Some(awaited) => tell_if_left(awaited, is_here(answer), scene, session, page),
        None => page.put(b""),
    }
}

/// Writes a line with the value that was returned, where the frame was left.
fn tell_if_left<M: ExpressionMachine, O: AnswerWriter + Drop>(
    awaited: Awaited,
    is_left: bool,
    scene: Scene<'_>,
    session: &Session<M>,
    page: &mut Page<O>,
)
    ensures { (s : Setting) (d : Debugger) → StandsFor M.stands session.now s d
        → spec.WritesIf (λ text. Puts text page.old.has_failed page.new.has_failed (O.written page.old.writer) (O.written page.new.writer)) s d (Some awaited) is_left scene.entry.layout }
{
    if is_left {
        tell_result(awaited, depth(session), scene, session.machine(), page);
    } else {
        page.put(b"");
    }
}

/// Writes a line with the value that the frame at a depth was given, or that there is no memory to show it.
fn tell_result<M: ExpressionMachine, O: AnswerWriter + Drop>(
    awaited: Awaited,
    depth: usize,
    scene: Scene<'_>,
    machine: &M,
    page: &mut Page<O>,
)
    ensures { (s : Setting) (d : Debugger) → M.stands machine.now s d → depth ≡ model.depth (now s d)
        → spec.WritesResult (λ text. Puts text page.old.has_failed page.new.has_failed (O.written page.old.writer) (O.written page.new.writer)) s d awaited scene.entry.layout }
{
    match told_result(awaited, depth, scene, machine) {
        Ok(told) => put_if_told(&told, page),
        Err(_) => page.put(NO_MEMORY),
    }
}

/// Writes a line with what is told, if anything is.
fn put_if_told<O: AnswerWriter + Drop>(told: &Option<Told>, page: &mut Page<O>)
    ensures { Puts (spec.returned_text told.now) page.old.has_failed page.new.has_failed (O.written page.old.writer) (O.written page.new.writer) }
{
    match told {
        Some(told) => put_returned(told, page),
        None => page.put(b""),
    }
}

/// Writes a line with a value that was returned.
fn put_returned<O: AnswerWriter + Drop>(told: &Told, page: &mut Page<O>)
    ensures { Puts (codes "Value returned:" ++ told_text in_digits.Decimal told.now) page.old.has_failed page.new.has_failed (O.written page.old.writer) (O.written page.new.writer) }
{
    page.put(RETURNED);
    put_told(Digits::Decimal, told, page);
}

/// What is told of a result, by the variable of the frame at a depth that got it, or none where it is not in scope. In the lanes that the
/// call left out it shows what the variable held before, as of lanes that wait.
fn told_result<M: ExpressionMachine>(
    awaited: Awaited,
    depth: usize,
    scene: Scene<'_>,
    machine: &M,
) -> Result<Option<Told>, AllocError>
    ensures { (s : Setting) (d : Debugger) → M.stands machine.now s d → IfOk result (spec.IsTold s d depth awaited scene.entry.layout) }
{
    match name_of(awaited.given.variable, awaited.caller, machine.program()) {
        Some(name) => told_named(name, awaited, depth, scene, machine),
        None => Ok(None),
    }
}

/// What is told of the variable of a name in the frame at a depth, where that got a result.
fn told_named<M: ExpressionMachine>(
    name: &[u8],
    awaited: Awaited,
    depth: usize,
    scene: Scene<'_>,
    machine: &M,
) -> Result<Option<Told>, AllocError>
    ensures { (s : Setting) (d : Debugger) → M.stands machine.now s d → IfOk result (spec.IsToldBy s d depth awaited scene.entry.layout name.now) }
{
    match machine.find_at(depth, name) {
        Some(shown) => told_if_gets(shown, awaited, depth, scene, machine),
        None => Ok(None),
    }
}

/// What is told of a variable of the frame at a depth, where that got a result.
fn told_if_gets<M: ExpressionMachine>(
    shown: Shown,
    awaited: Awaited,
    depth: usize,
    scene: Scene<'_>,
    machine: &M,
) -> Result<Option<Told>, AllocError>
    ensures { (s : Setting) (d : Debugger) (v : Variable) → M.stands machine.now s d → IsShownAt s d depth v shown
        → IfOk result (spec.IsToldOf s d depth awaited scene.entry.layout shown) }
{
    if gets(shown, awaited.given) {
        told_shown(shown, awaited, depth, scene, machine)
    } else {
        Ok(None)
    }
}

/// What is told of a variable of the frame at a depth that got a result.
fn told_shown<M: ExpressionMachine>(
    shown: Shown,
    awaited: Awaited,
    depth: usize,
    scene: Scene<'_>,
    machine: &M,
) -> Result<Option<Told>, AllocError>
    ensures { (s : Setting) (d : Debugger) (v : Variable) → M.stands machine.now s d → IsShownAt s d depth v shown → spec.Gets awaited.given shown
        → IfOk result (spec.IsToldOf s d depth awaited scene.entry.layout shown) }
{
    match told_variable(
        scene.alloc,
        scene.layout,
        shown,
        awaited.lanes,
        0,
        shown.count,
        depth,
        machine,
    ) {
        Ok(told) => Ok(Some(told)),
        Err(fault) => Err(fault),
    }
}

/// Whether this is a scalar that gets a result of its type.
fn gets(shown: Shown, given: GivenResult) -> bool
    ensures yes { result ≡ true → spec.Gets given shown }
    ensures no { result ≡ false → spec.Gets given shown → ⊥ }
{
    !shown.is_array && shown.id == given.variable && shown.value_type == given.value_type
}

/// The name of a variable of a function or of the file.
fn name_of(variable: VarId, function: usize, program: &Program) -> Option<&[u8]>
    ensures { bytes_option result ≡ spec.name_of program.now function variable }
{
    match variable {
        VarId::File(number) => match program.globals.get(number) {
            Some(global) => Some(global.variable.name.as_slice()),
            None => None,
        },
        VarId::Local(number) => match program.functions.get(function) {
            Some(function) => local_name(number, function),
            None => None,
        },
    }
}

/// The name of a variable of a function.
fn local_name(number: usize, function: &Function) -> Option<&[u8]>
    ensures { bytes_option result ≡ option_map (λ v. v.name.items) (slice_get function.now.variables.items number) }
{
    match function.variables.get(number) {
        Some(variable) => Some(variable.name.as_slice()),
        None => None,
    }
}
