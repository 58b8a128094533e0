//! The command lines that a request is.
ghost use Rattle.std.specs.Prelude.{◌≡◌, ℕ, List, ◌++◌, flat_map, map, string_bytes, IfOk};
ghost use Rattle.gang_model.specs.Debugger.Debugger as model;
ghost use Rattle.gang_model.specs.Debugger.Debugger.{Debugger, Setting, depth, now};
ghost use Rattle.gang_model.specs.Texts.CommandText.{command_of};
ghost use Rattle.debug_answers.specs.Meanings.{AreStops};
ghost use Rattle.debug_commands.specs.Views.{command_view};
ghost use Rattle.debug_session.specs.Sessions.{StandsFor};
ghost use Rattle.typed_tree.specs.Views.{program_view};
ghost use Rattle.adapter_session.specs.Given.{given_numbers, is_of, is_on_line};
ghost use Rattle.adapter_session.specs.Requested.{break_at, break_line, delete_line, evaluated, function_line_for, is_console, is_done, is_elsewhere, is_in, is_look, is_program, is_set, line_for, lines_of, move_lines, only, set_lines, value_lines, watch_line};
ghost use Rattle.adapter_session.specs.Terms.{function_numbers, terms_of};

use crate::frames::has_frame;
use crate::functions::function_numbers;
use crate::terms::Terms;
use adapter_replies::{depth_of, is_set_there};
use adapter_requests::{
    BreakpointFault, Context, DataBreakpoint, FunctionBreakpoint, LineBreakpoint, Request,
};
use debug_answers::{NumberedStop, Stop};
use debug_commands::{Command, read_command};
use debug_session::Session;
use debug_words::is_same;
use frame_expressions::ExpressionMachine;
use function_lines::function_line;
use std::alloc::{AllocError, Global};
use typed_tree::Program;

/// Breakpoints of lines or of functions, or watches.
#[derive(Clone, Copy, Debug)]
pub(crate) enum Kind {
    Lines,
    Functions,
    Watches,
}

/// What decides the lines of a request.
#[derive(Clone, Copy)]
struct Scene<'a> {
    program: &'a Program,
    /// The path of the program's source.
    path: &'a str,
    /// The numbers of the breakpoints of functions.
    functions: &'a [u32],
    depth: usize,
    stops: &'a [NumberedStop],
}

/// The command lines that a request is, where the program's source has this path, with the breakpoints and watches of a session.
///
/// # Errors
///
/// Out of memory.
pub fn command_lines<M: ExpressionMachine>(
    alloc: Global,
    path: &str,
    terms: &Terms,
    session: &Session<M>,
    request: &Request<'_>,
) -> Result<Vec<String>, AllocError>
    ensures { (s : Setting) (d : Debugger) → StandsFor M.stands session.now s d
        → IfOk result (λ lines. map string_bytes lines.items ≡ lines_of s.program path.now (function_numbers (terms_of terms.now)) (depth (now s d)) d.stops request.now) }
{
    let machine = session.machine();
    let functions = function_numbers(&terms.functions);
    let scene = Scene {
        program: machine.program(),
        path,
        functions: functions.as_slice(),
        depth: depth_of(machine),
        stops: session.stops(),
    };
    let lines = request_lines(alloc, scene, request)?;
    Ok(lines)
}

/// The command lines that a request is.
#[tactic(auto, using(crate::proofs::StopNumbers::numbers_are))]
fn request_lines(
    alloc: Global,
    scene: Scene<'_>,
    request: &Request<'_>,
) -> Result<Vec<String>, AllocError>
    ensures { IfOk result (λ lines. (s : Setting) (meant : List (ℕ × model.Stop)) → AreStops s scene.entry.stops.now meant
        → map string_bytes lines.items ≡ lines_of (program_view scene.entry.program.now) scene.entry.path.now scene.entry.functions.now scene.entry.depth meant request.now) }
{
    let Scene {
        program,
        path,
        functions,
        depth,
        stops,
    } = scene;
    match request {
        Request::SetBreakpoints { source, lines } => {
            if is_program(path, *source) {
                break_lines(alloc, functions, stops, lines)
            } else {
                Ok(Vec::new(alloc))
            }
        }
        Request::SetFunctionBreakpoints { functions: asked } => function_lines(
            alloc, program, functions, stops, asked,
        ),
        Request::SetDataBreakpoints { targets } => { watch_lines(alloc, functions, stops, targets) }
        _ => value_lines(alloc, depth, request),
    }
}

/// The command lines of a request about a value, and those of any other that sets no breakpoint or watch.
fn value_lines(
    alloc: Global,
    depth: usize,
    request: &Request<'_>,
) -> Result<Vec<String>, AllocError>
    ensures { IfOk result (λ lines. map string_bytes lines.items ≡ value_lines depth request.now) }
{
    match request {
        Request::SetVariable {
            reference,
            name,
            value,
            is_hexadecimal: _,
        } => set_lines(alloc, is_set_there(depth, *reference), name, value),
        Request::SetExpression {
            expression,
            value,
            frame,
            is_hexadecimal: _,
        } => set_lines(alloc, has_frame(depth, *frame), expression, value),
        Request::Evaluate {
            expression,
            frame,
            context,
            is_hexadecimal: _,
        } => evaluated(
            alloc,
            expression,
            is_console(*context),
            is_elsewhere(depth, *frame),
            has_frame(depth, *frame),
        ),
        _ => move_lines(alloc, request),
    }
}

/// The command line of a request that moves the program; none of one that does nothing.
fn move_lines(alloc: Global, request: &Request<'_>) -> Result<Vec<String>, AllocError>
    ensures { IfOk result (λ lines. map string_bytes lines.items ≡ move_lines request.now) }
{
    match request {
        Request::Next => alone(alloc, "next"),
        Request::StepIn => alone(alloc, "step"),
        Request::StepOut => alone(alloc, "finish"),
        Request::Continue => alone(alloc, "continue"),
        Request::StepBack => alone(alloc, "reverse-step"),
        Request::ReverseContinue => alone(alloc, "reverse-continue"),
        _ => Ok(Vec::new(alloc)),
    }
}

/// A line alone.
fn alone(alloc: Global, line: &str) -> Result<Vec<String>, AllocError>
    ensures { IfOk result (λ lines. map string_bytes lines.items ≡ only line.now) }
{
    let mut lines = Vec::new(alloc);
    lines.push(String::from_str(alloc, line)?)?;
    Ok(lines)
}

/// The line that sets a target, where it can be set.
fn set_lines(
    alloc: Global,
    is_set: bool,
    target: &str,
    value: &str,
) -> Result<Vec<String>, AllocError>
    ensures { IfOk result (λ lines. map string_bytes lines.items ≡ set_lines is_set target.now value.now) }
{
    if !is_set {
        return Ok(Vec::new(alloc));
    }
    let line = format!(in alloc; "set var {target} = {value}")?;
    alone(alloc, line.as_str())
}

/// Whether a source is the program's.
pub(crate) fn is_program(program: &str, source: Option<&str>) -> bool
    ensures { result ≡ is_program program.now source.entry }
{
    match source {
        None => false,
        Some(source) => is_same(source.as_bytes(), program.as_bytes()),
    }
}

/// Whether an expression is looked up in another frame than the top one.
fn is_elsewhere(top: usize, frame: Option<u64>) -> bool
    ensures { result ≡ is_elsewhere top frame }
{
    match frame {
        None => false,
        Some(frame) => frame as usize != top,
    }
}

/// Whether an expression stands in the console.
pub(crate) fn is_console(context: Context) -> bool
    ensures { result ≡ is_console context }
{
    context == Context::Console
}

/// Whether a line of the console is done as the command that it spells: one that looks at the top frame is not, where another one is
/// looked at, nor is one that sets a value, where no frame is there.
fn is_done(line: &str, is_elsewhere: bool, has_frame: bool) -> bool
    ensures { result ≡ is_done is_elsewhere has_frame (command_of line.now) }
{
    match read_command(line.as_bytes()) {
        None => false,
        Some(command) => !(is_elsewhere && is_look(command)) && (has_frame || !is_set(command)),
    }
}

/// Whether a command sets a value.
fn is_set(command: Command<'_>) -> bool
    ensures { result ≡ is_set (command_view command.entry) }
{
    matches!(command, Command::Set { .. })
}

/// Whether a command only looks at the top frame.
fn is_look(command: Command<'_>) -> bool
    ensures { result ≡ is_look (command_view command.entry) }
{
    matches!(command, Command::Print(_) | Command::InfoLocals)
}

/// The line of an expression: in the console the line itself, where it spells a command that is done; else that which shows it, unless
/// it is looked up in another frame than the top one.
fn evaluated(
    alloc: Global,
    expression: &str,
    is_console: bool,
    is_elsewhere: bool,
    has_frame: bool,
) -> Result<Vec<String>, AllocError>
    ensures { IfOk result (λ lines. map string_bytes lines.items ≡ evaluated is_console is_elsewhere has_frame expression.now) }
{
    if is_console && is_done(expression, is_elsewhere, has_frame) {
        alone(alloc, expression)
    } else if is_elsewhere {
        Ok(Vec::new(alloc))
    } else {
        let line = format!(in alloc; "print {expression}")?;
        alone(alloc, line.as_str())
    }
}

/// The lines that put breakpoints in place of those of lines that there are.
fn break_lines(
    alloc: Global,
    functions: &[u32],
    stops: &[NumberedStop],
    lines: &[Result<LineBreakpoint<'_>, BreakpointFault>],
) -> Result<Vec<String>, AllocError>
    ensures { IfOk result (λ all. map string_bytes all.items
        ≡ map delete_line (given_numbers Kind.Lines functions.now stops.now) ++ flat_map (line_for (λ asked. break_line asked.line)) lines.now) }
{
    let mut all = delete_lines(alloc, Kind::Lines, functions, stops)?;
    for asked in lines {
        push_break(alloc, *asked, &mut all)?;
    }
    Ok(all)
}

/// Puts the line that makes a breakpoint behind others, where it can be made.
fn push_break(
    alloc: Global,
    asked: Result<LineBreakpoint<'_>, BreakpointFault>,
    all: &mut Vec<String>,
) -> Result<(), AllocError>
    ensures { IfOk result (λ _. map string_bytes all.new.items
        ≡ map string_bytes all.old.items ++ line_for (λ asked. break_line asked.line) asked.entry) }
{
    if let Ok(asked) = asked {
        let line = asked.line;
        all.push(format!(in alloc; "break {line}")?)?;
    }
    Ok(())
}

/// The lines that put breakpoints on functions of a program, in place of those of functions that there are.
fn function_lines(
    alloc: Global,
    program: &Program,
    functions: &[u32],
    stops: &[NumberedStop],
    asked: &[Result<FunctionBreakpoint<'_>, BreakpointFault>],
) -> Result<Vec<String>, AllocError>
    ensures { IfOk result (λ all. map string_bytes all.items
        ≡ map delete_line (given_numbers Kind.Functions functions.now stops.now) ++ flat_map (function_line_for (program_view program.now)) asked.now) }
{
    let mut all = delete_lines(alloc, Kind::Functions, functions, stops)?;
    for function in asked {
        push_function(alloc, program, *function, &mut all)?;
    }
    Ok(all)
}

/// Puts the line that makes a breakpoint of a function behind others, where it can be made.
fn push_function(
    alloc: Global,
    program: &Program,
    asked: Result<FunctionBreakpoint<'_>, BreakpointFault>,
    all: &mut Vec<String>,
) -> Result<(), AllocError>
    ensures { IfOk result (λ _. map string_bytes all.new.items
        ≡ map string_bytes all.old.items ++ function_line_for (program_view program.now) asked.entry) }
{
    match asked {
        Ok(asked) => push_at(alloc, function_line(program, asked.name.as_bytes()), all),
        Err(_) => Ok(()),
    }
}

/// Puts the line that makes a breakpoint on a line behind others, if there is a line.
fn push_at(alloc: Global, line: Option<u32>, all: &mut Vec<String>) -> Result<(), AllocError>
    ensures { IfOk result (λ _. map string_bytes all.new.items ≡ map string_bytes all.old.items ++ break_at line) }
{
    if let Some(line) = line {
        all.push(format!(in alloc; "break {line}")?)?;
    }
    Ok(())
}

/// The lines that watch targets, in place of those that are watched.
fn watch_lines(
    alloc: Global,
    functions: &[u32],
    stops: &[NumberedStop],
    targets: &[Result<DataBreakpoint<'_>, BreakpointFault>],
) -> Result<Vec<String>, AllocError>
    ensures { IfOk result (λ all. map string_bytes all.items
        ≡ map delete_line (given_numbers Kind.Watches functions.now stops.now) ++ flat_map (line_for (λ asked. watch_line asked.target.now)) targets.now) }
{
    let mut all = delete_lines(alloc, Kind::Watches, functions, stops)?;
    for target in targets {
        push_watch(alloc, *target, &mut all)?;
    }
    Ok(all)
}

/// Puts the line that makes a watch behind others, where it can be made.
fn push_watch(
    alloc: Global,
    asked: Result<DataBreakpoint<'_>, BreakpointFault>,
    all: &mut Vec<String>,
) -> Result<(), AllocError>
    ensures { IfOk result (λ _. map string_bytes all.new.items
        ≡ map string_bytes all.old.items ++ line_for (λ asked. watch_line asked.target.now) asked.entry) }
{
    if let Ok(asked) = asked {
        let target = asked.target;
        all.push(format!(in alloc; "watch {target}")?)?;
    }
    Ok(())
}

/// The lines that delete the stops of a kind.
fn delete_lines(
    alloc: Global,
    kind: Kind,
    functions: &[u32],
    stops: &[NumberedStop],
) -> Result<Vec<String>, AllocError>
    ensures { IfOk result (λ lines. map string_bytes lines.items ≡ map delete_line (given_numbers kind functions.now stops.now)) }
{
    let mut lines = Vec::new(alloc);
    for entry in stops {
        if is_of(kind, functions, *entry) {
            let number = entry.number;
            lines.push(format!(in alloc; "delete {number}")?)?;
        }
    }
    Ok(lines)
}

/// Whether a stop is of a kind, where the breakpoints of functions have these numbers.
pub(crate) fn is_of(kind: Kind, functions: &[u32], entry: NumberedStop) -> bool
    ensures { result ≡ is_of kind functions.now entry }
{
    match kind {
        Kind::Lines => is_on_line(entry.stop) && !is_in(functions, entry.number),
        Kind::Functions => is_on_line(entry.stop) && is_in(functions, entry.number),
        Kind::Watches => !is_on_line(entry.stop),
    }
}

/// Whether a stop is a breakpoint.
fn is_on_line(stop: Stop) -> bool
    ensures { result ≡ is_on_line stop }
{
    matches!(stop, Stop::Line(_))
}

/// Whether a number is one of some.
fn is_in(numbers: &[u32], number: u32) -> bool
    ensures { result ≡ is_in numbers.now number }
{
    numbers.iter().any(|one| *one == number)
}
