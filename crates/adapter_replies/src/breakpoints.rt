//! The breakpoints and watches that were asked for.
ghost use Rattle.std.specs.Prelude.{◌≡◌, ℕ, List, IfOk, None, Some, map};
ghost use Rattle.gang_model.specs.Debugger.Debugger as model;
ghost use Rattle.gang_model.specs.Debugger.Debugger.{Debugger, Setting, first_stop, global_named, least_from, on_line, step_lines};
ghost use Rattle.gang_model.specs.Texts.CommandText.{command_of};
ghost use Rattle.debug_answers.specs.Meanings.{AreStops, IsStop};
ghost use Rattle.debug_commands.specs.Views.{target_view};
ghost use Rattle.gang_model.specs.Source.Names.{same_text};
ghost use Rattle.adapter_requests.specs.declared.reply.BreakpointFault.TheVariants as fault;
ghost use Rattle.adapter_replies.specs.Breakpoints.{breakpoint_of, can_watch, has_name, has_target, is_part, no_watch, on_function, same_index, standing, told_breakpoint, told_function, told_watch, watch_number, watches_target};

use crate::parts::has_parts;
use adapter_requests::{
    Breakpoint, BreakpointFault, DataBreakpoint, FunctionBreakpoint, LineBreakpoint,
};
use debug_answers::{NumberedStop, Stop};
use debug_commands::{Command, Target, read_command};
use debug_session::breakpoint_on;
use debug_traits::{RecordedMachine, Shown};
use debug_words::is_same;
use frame_expressions::ExpressionMachine;
use function_lines::function_line;
use std::alloc::{AllocError, Global};

/// The breakpoints that were asked for on lines.
pub(crate) fn breakpoints<M: RecordedMachine>(
    alloc: Global,
    machine: &M,
    stops: &[NumberedStop],
    lines: &[Result<LineBreakpoint<'_>, BreakpointFault>],
    is_program: bool,
) -> Result<Vec<Breakpoint>, AllocError>
    ensures { (s : Setting) (d : Debugger) (meant : List (ℕ × model.Stop)) → M.stands machine.now s d → AreStops s stops.now meant
        → IfOk result (λ made. made.items ≡ map (told_breakpoint s is_program meant) lines.now) }
{
    let mut made = Vec::new(alloc);
    for line in lines {
        made.push(breakpoint(machine, stops, *line, is_program))?;
    }
    Ok(made)
}

/// The breakpoint that was asked for on a line: it stands on the first line from there on that has a place. Another source has
/// none.
fn breakpoint<M: RecordedMachine>(
    machine: &M,
    stops: &[NumberedStop],
    asked: Result<LineBreakpoint<'_>, BreakpointFault>,
    is_program: bool,
) -> Breakpoint
    ensures { (s : Setting) (d : Debugger) (meant : List (ℕ × model.Stop)) → M.stands machine.now s d → AreStops s stops.now meant
        → result ≡ told_breakpoint s is_program meant asked.entry }
{
    match asked {
        Err(fault) => Breakpoint::Refused(fault),
        Ok(_) if !is_program => Breakpoint::Refused(BreakpointFault::OtherSource),
        Ok(asked) => breakpoint_from(machine, stops, asked.line),
    }
}

/// The breakpoint on the first line from one on that has a place.
fn breakpoint_from<M: RecordedMachine>(machine: &M, stops: &[NumberedStop], line: u32) -> Breakpoint
    ensures { (s : Setting) (d : Debugger) (meant : List (ℕ × model.Stop)) → M.stands machine.now s d → AreStops s stops.now meant
        → result ≡ breakpoint_of meant (least_from line (step_lines s.program)) }
{
    match machine.line_from(line) {
        None => Breakpoint::Refused(BreakpointFault::NoStep),
        Some(line) => standing_on(stops, line),
    }
}

/// The breakpoints that were asked for on functions.
pub(crate) fn functions<M: ExpressionMachine>(
    alloc: Global,
    machine: &M,
    stops: &[NumberedStop],
    functions: &[Result<FunctionBreakpoint<'_>, BreakpointFault>],
) -> Result<Vec<Breakpoint>, AllocError>
    ensures { (s : Setting) (d : Debugger) (meant : List (ℕ × model.Stop)) → M.stands machine.now s d → AreStops s stops.now meant
        → IfOk result (λ made. made.items ≡ map (told_function s meant) functions.now) }
{
    let mut made = Vec::new(alloc);
    for function in functions {
        made.push(function_breakpoint(machine, stops, *function))?;
    }
    Ok(made)
}

/// The breakpoint that was asked for on a function: it stands on the first line of it.
fn function_breakpoint<M: ExpressionMachine>(
    machine: &M,
    stops: &[NumberedStop],
    asked: Result<FunctionBreakpoint<'_>, BreakpointFault>,
) -> Breakpoint
    ensures { (s : Setting) (d : Debugger) (meant : List (ℕ × model.Stop)) → M.stands machine.now s d → AreStops s stops.now meant
        → result ≡ told_function s meant asked.entry }
{
    match asked {
        Err(fault) => Breakpoint::Refused(fault),
        Ok(asked) => {
            let line = function_line(machine.program(), asked.name.as_bytes());
            on_function(stops, line)
        }
    }
}

/// The breakpoint on the first line of a function, if there is one.
fn on_function(stops: &[NumberedStop], line: Option<u32>) -> Breakpoint
    ensures { (s : Setting) (meant : List (ℕ × model.Stop)) → AreStops s stops.now meant → result ≡ on_function meant line }
{
    match line {
        None => Breakpoint::Refused(BreakpointFault::NoFunction),
        Some(line) => standing_on(stops, line),
    }
}

/// The breakpoint on a line among those that there are: where it is not there no more can be.
fn standing_on(stops: &[NumberedStop], line: u32) -> Breakpoint
    ensures { (s : Setting) (meant : List (ℕ × model.Stop)) → AreStops s stops.now meant
        → result ≡ standing (first_stop (on_line (Some line)) meant) (Some line) fault.Full }
{
    standing(
        breakpoint_on(line, stops),
        Some(line),
        BreakpointFault::Full,
    )
}

/// A breakpoint or a watch by its number and its line; without a number it is not there for this reason.
fn standing(number: Option<u32>, line: Option<u32>, fault: BreakpointFault) -> Breakpoint
    ensures { result ≡ standing number line fault }
{
    match number {
        Some(number) => Breakpoint::Stands { number, line },
        None => Breakpoint::Refused(fault),
    }
}

/// The watches of targets.
pub(crate) fn watches<M: RecordedMachine>(
    alloc: Global,
    machine: &M,
    stops: &[NumberedStop],
    targets: &[Result<DataBreakpoint<'_>, BreakpointFault>],
) -> Result<Vec<Breakpoint>, AllocError>
    ensures { (s : Setting) (d : Debugger) (meant : List (ℕ × model.Stop)) → M.stands machine.now s d → AreStops s stops.now meant
        → IfOk result (λ made. made.items ≡ map (told_watch s d meant) targets.now) }
{
    let mut made = Vec::new(alloc);
    for target in targets {
        made.push(watch(alloc, machine, stops, *target)?)?;
    }
    Ok(made)
}

/// The watch of a target, or why it is not there.
fn watch<M: RecordedMachine>(
    alloc: Global,
    machine: &M,
    stops: &[NumberedStop],
    asked: Result<DataBreakpoint<'_>, BreakpointFault>,
) -> Result<Breakpoint, AllocError>
    ensures { (s : Setting) (d : Debugger) (meant : List (ℕ × model.Stop)) → M.stands machine.now s d → AreStops s stops.now meant
        → IfOk result (λ made. made ≡ told_watch s d meant asked.entry) }
{
    match asked {
        Err(fault) => Ok(Breakpoint::Refused(fault)),
        Ok(asked) => {
            let target = asked.target;
            let line = format!(in alloc; "watch {target}")?;
            Ok(watch_by(machine, stops, line.as_bytes()))
        }
    }
}

/// The watch that a line asks for, or why it is not there.
fn watch_by<M: RecordedMachine>(machine: &M, stops: &[NumberedStop], line: &[u8]) -> Breakpoint
    ensures { (s : Setting) (d : Debugger) (meant : List (ℕ × model.Stop)) → M.stands machine.now s d → AreStops s stops.now meant
        → result ≡ standing (watch_number (command_of line.now) meant) None (no_watch (can_watch s d (command_of line.now))) }
{
    let fault = if can_watch(machine, line) {
        BreakpointFault::Full
    } else {
        BreakpointFault::NotWatched
    };
    let number = match read_command(line) {
        Some(Command::Watch(target)) => watch_number(machine, stops, target),
        _ => None,
    };
    standing(number, None, fault)
}

/// The least number of a watch of a target.
fn watch_number<M: RecordedMachine>(
    machine: &M,
    stops: &[NumberedStop],
    target: Target<'_>,
) -> Option<u32>
    ensures { (s : Setting) (d : Debugger) (meant : List (ℕ × model.Stop)) → M.stands machine.now s d → AreStops s stops.now meant
        → result ≡ first_stop (watches_target (target_view target.entry)) meant }
{
    for entry in stops {
        if is_watch_of(machine, entry.stop, target) {
            return Some(entry.number);
        }
    }
    None
}

/// Whether this is a watch of a target.
fn is_watch_of<M: RecordedMachine>(machine: &M, stop: Stop, target: Target<'_>) -> bool
    ensures { (s : Setting) (d : Debugger) (meant : model.Stop) → M.stands machine.now s d → IsStop s stop meant
        → result ≡ watches_target (target_view target.entry) meant }
{
    match stop {
        Stop::Line(_) => false,
        Stop::Watch { variable, at } => {
            is_named(machine, variable, target.name) && is_same_index(at, target.at)
        }
    }
}

/// Whether the variable of the file with this number has a name.
fn is_named<M: RecordedMachine>(machine: &M, variable: usize, name: &[u8]) -> bool
    ensures { (s : Setting) (d : Debugger) → M.stands machine.now s d → result ≡ has_name s variable name.now }
{
    match machine.file_variable(variable) {
        None => false,
        Some(named) => is_same(named.name, name),
    }
}

/// Whether two indices are the same, or neither is there.
fn is_same_index(one: Option<u32>, other: Option<u32>) -> bool
    ensures { result ≡ same_index one other }
{
    match (one, other) {
        (None, None) => true,
        (Some(one), Some(other)) => one == other,
        _ => false,
    }
}

/// Whether a line watches something that can be watched.
pub fn can_watch<M: RecordedMachine>(machine: &M, line: &[u8]) -> bool
    ensures { (s : Setting) (d : Debugger) → M.stands machine.now s d → result ≡ can_watch s d (command_of line.now) }
{
    match read_command(line) {
        Some(Command::Watch(target)) => has_target(machine, target),
        _ => false,
    }
}

/// Whether a target is a scalar of the file, a lane of one or an element, and is there.
fn has_target<M: RecordedMachine>(machine: &M, target: Target<'_>) -> bool
    ensures { (s : Setting) (d : Debugger) → M.stands machine.now s d
        → result ≡ has_target s d (target_view target.entry) (global_named s.program target.entry.name.now) }
{
    let Some(variable) = machine.find_in_file(target.name) else {
        return false;
    };
    match machine.file_variable(variable) {
        None => false,
        Some(named) => has_part(named.shown, target.at),
    }
}

/// Whether a variable is a scalar, or has the lane or the element at an index.
fn has_part(shown: Shown, at: Option<u32>) -> bool
    ensures { result ≡ is_part at shown.is_array shown.rate shown.count }
{
    match at {
        None => !shown.is_array,
        Some(index) => has_parts(shown) && (index as usize) < shown.count,
    }
}
