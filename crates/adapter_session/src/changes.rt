//! What the requests ask for that put breakpoints or watches in place of others.
ghost use Rattle.std.specs.Prelude.{◌≡◌, ℕ, ◌++◌, ◌∷◌, [], List, not, count_by, flat_map, map, option_map, IfOk, OnOk, None};
ghost use Rattle.gang_model.specs.Debugger.Debugger as model;
ghost use Rattle.gang_model.specs.Debugger.Debugger.{Debugger, Setting};
ghost use Rattle.debug_answers.specs.Meanings.{AreStops};
ghost use Rattle.debug_session.specs.Sessions.{StandsFor, bare};
ghost use Rattle.typed_tree.specs.Views.{program_view};
ghost use Rattle.adapter_session.specs.Changes as spec;
ghost use Rattle.adapter_session.specs.Changes.{asked_view, change_view, of_function, of_line, of_watch, text_of};
ghost use Rattle.adapter_session.specs.Given.{is_of};

use crate::lines::{Kind, is_of, is_program};
use adapter_replies::can_watch;
use adapter_requests::{
    BreakpointFault, DataBreakpoint, FunctionBreakpoint, LineBreakpoint, Request,
};
use debug_answers::NumberedStop;
use debug_session::Session;
use debug_traits::RecordedMachine;
use frame_expressions::ExpressionMachine;
use function_lines::function_line;
use std::alloc::{AllocError, Global};
use typed_tree::Program;

/// What is asked for a breakpoint or a watch.
#[derive(Clone, Copy)]
pub(crate) struct Asked<'a> {
    /// The expression where it stops, if it does not stop always.
    pub(crate) condition: Option<&'a str>,
    /// How many of its stops are passed first.
    pub(crate) passes: u32,
    /// The message that it writes in place of stopping, if it does.
    pub(crate) log: Option<&'a str>,
    /// The name of the function that it is of, if it is of one.
    pub(crate) name: Option<&'a str>,
}

/// A request that puts stops of a kind in place of those that there are.
#[derive(Drop)]
pub(crate) struct Change<'a> {
    /// How many others stay.
    pub(crate) staying: usize,
    /// What is asked for those that can stand.
    pub(crate) asked: Vec<Asked<'a>>,
}

/// What a request changes so, if it does, before it is done.
pub(crate) fn change_of<'a, M: ExpressionMachine>(
    alloc: Global,
    path: &str,
    functions: &[u32],
    session: &Session<M>,
    request: &Request<'a>,
) -> Result<Option<Change<'a>>, AllocError>
    ensures { (s : Setting) (d : Debugger) → StandsFor M.stands session.now s d
        → IfOk result (λ change. option_map change_view change ≡ spec.change_of s path.now functions.now d request.now) }
{
    match request {
        Request::SetBreakpoints { source, lines } => {
            if is_program(path, *source) {
                Ok(Some(change_lines(alloc, functions, session, lines)?))
            } else {
                Ok(None)
            }
        }
        Request::SetFunctionBreakpoints { functions: entries } => Ok(Some(change_functions(
            alloc, functions, session, entries,
        )?)),
        Request::SetDataBreakpoints { targets } => Ok(Some(change_watches(
            alloc, functions, session, targets,
        )?)),
        _ => Ok(None),
    }
}

/// Breakpoints of lines in place of those that there are.
fn change_lines<'a, M: RecordedMachine>(
    alloc: Global,
    functions: &[u32],
    session: &Session<M>,
    lines: &[Result<LineBreakpoint<'a>, BreakpointFault>],
) -> Result<Change<'a>, AllocError>
    ensures { (s : Setting) (d : Debugger) → StandsFor M.stands session.now s d
        → IfOk result (λ made. change_view made ≡ spec.change Kind.Lines functions.now d.stops (flat_map (of_line s) lines.now)) }
{
    let asked = asked_lines(alloc, session.machine(), lines)?;
    Ok(made_change(Kind::Lines, functions, session.stops(), asked))
}

/// Breakpoints of functions in place of those that there are.
fn change_functions<'a, M: ExpressionMachine>(
    alloc: Global,
    functions: &[u32],
    session: &Session<M>,
    entries: &[Result<FunctionBreakpoint<'a>, BreakpointFault>],
) -> Result<Change<'a>, AllocError>
    ensures { (s : Setting) (d : Debugger) → StandsFor M.stands session.now s d
        → IfOk result (λ made. change_view made ≡ spec.change Kind.Functions functions.now d.stops (flat_map (of_function s.program) entries.now)) }
{
    let asked = asked_functions(alloc, session.machine().program(), entries)?;
    Ok(made_change(Kind::Functions, functions, session.stops(), asked))
}

/// Watches in place of those that there are.
fn change_watches<'a, M: RecordedMachine>(
    alloc: Global,
    functions: &[u32],
    session: &Session<M>,
    targets: &[Result<DataBreakpoint<'a>, BreakpointFault>],
) -> Result<Change<'a>, AllocError>
    ensures { (s : Setting) (d : Debugger) → StandsFor M.stands session.now s d
        → IfOk result (λ made. change_view made ≡ spec.change Kind.Watches functions.now d.stops (flat_map (of_watch s (bare d)) targets.now)) }
{
    let asked = asked_watches(alloc, session.machine(), targets)?;
    Ok(made_change(Kind::Watches, functions, session.stops(), asked))
}

/// Stops of a kind in place of those that there are.
fn made_change<'a>(
    kind: Kind,
    functions: &[u32],
    stops: &[NumberedStop],
    asked: Vec<Asked<'a>>,
) -> Change<'a>
    ensures { (s : Setting) (meant : List (ℕ × model.Stop)) → AreStops s stops.now meant
        → change_view result ≡ spec.change kind functions.now meant (map asked_view asked.entry.items) }
{
    Change {
        staying: staying(kind, functions, stops),
        asked,
    }
}

/// How many stops stay where those of a kind go.
fn staying(kind: Kind, functions: &[u32], stops: &[NumberedStop]) -> usize
    ensures { result ≡ count_by (λ entry. not (is_of kind functions.now entry)) stops.now }
{
    stops
        .iter()
        .filter(|entry| !is_of(kind, functions, **entry))
        .count()
}

/// What is asked for on lines.
fn asked_lines<'a, M: RecordedMachine>(
    alloc: Global,
    machine: &M,
    lines: &[Result<LineBreakpoint<'a>, BreakpointFault>],
) -> Result<Vec<Asked<'a>>, AllocError>
    ensures { (s : Setting) (d : Debugger) → M.stands machine.now s d
        → IfOk result (λ all. map asked_view all.items ≡ flat_map (of_line s) lines.now) }
{
    let mut all = Vec::new(alloc);
    for line in lines {
        push(&mut all, asked_line(machine, *line))?;
    }
    Ok(all)
}

/// What is asked for on a line, where a breakpoint can stand there.
fn asked_line<'a, M: RecordedMachine>(
    machine: &M,
    asked: Result<LineBreakpoint<'a>, BreakpointFault>,
) -> Option<Asked<'a>>
    ensures { (s : Setting) (d : Debugger) → M.stands machine.now s d
        → spec.listed (option_map asked_view result) ≡ of_line s asked.entry }
{
    match asked {
        Ok(asked) if machine.line_from(asked.line).is_some() => Some(Asked {
            condition: asked.condition,
            passes: asked.passes,
            log: asked.log,
            name: None,
        }),
        Ok(_) | Err(_) => None,
    }
}

/// What is asked for on functions.
fn asked_functions<'a>(
    alloc: Global,
    program: &Program,
    functions: &[Result<FunctionBreakpoint<'a>, BreakpointFault>],
) -> Result<Vec<Asked<'a>>, AllocError>
    ensures { IfOk result (λ all. map asked_view all.items ≡ flat_map (of_function (program_view program.now)) functions.now) }
{
    let mut all = Vec::new(alloc);
    for function in functions {
        push(&mut all, asked_function(program, *function))?;
    }
    Ok(all)
}

/// What is asked for on a function, where the program has it.
fn asked_function<'a>(
    program: &Program,
    asked: Result<FunctionBreakpoint<'a>, BreakpointFault>,
) -> Option<Asked<'a>>
    ensures { spec.listed (option_map asked_view result) ≡ of_function (program_view program.now) asked.entry }
{
    match asked {
        Ok(asked) if function_line(program, asked.name.as_bytes()).is_some() => Some(Asked {
            condition: asked.condition,
            passes: asked.passes,
            log: None,
            name: Some(asked.name),
        }),
        Ok(_) | Err(_) => None,
    }
}

/// What is asked for watches.
fn asked_watches<'a, M: RecordedMachine>(
    alloc: Global,
    machine: &M,
    targets: &[Result<DataBreakpoint<'a>, BreakpointFault>],
) -> Result<Vec<Asked<'a>>, AllocError>
    ensures { (s : Setting) (d : Debugger) → M.stands machine.now s d
        → IfOk result (λ all. map asked_view all.items ≡ flat_map (of_watch s d) targets.now) }
{
    let mut all = Vec::new(alloc);
    for target in targets {
        push(&mut all, asked_watch(alloc, machine, *target)?)?;
    }
    Ok(all)
}

/// What is asked for a watch, where its target can be watched.
fn asked_watch<'a, M: RecordedMachine>(
    alloc: Global,
    machine: &M,
    asked: Result<DataBreakpoint<'a>, BreakpointFault>,
) -> Result<Option<Asked<'a>>, AllocError>
    ensures { (s : Setting) (d : Debugger) → M.stands machine.now s d
        → IfOk result (λ one. spec.listed (option_map asked_view one) ≡ of_watch s d asked.entry) }
{
    let Ok(asked) = asked else {
        return Ok(None);
    };
    let target = asked.target;
    let line = format!(in alloc; "watch {target}")?;
    let is_there = can_watch(machine, line.as_bytes());
    Ok(watch_if(is_there, asked))
}

/// What is asked for a watch, where it can be there.
fn watch_if(is_there: bool, asked: DataBreakpoint<'_>) -> Option<Asked<'_>>
    ensures { spec.listed (option_map asked_view result)
        ≡ spec.if_stands is_there (record { condition = text_of asked.entry.condition; passes = asked.entry.passes; log = None; name = None }) }
{
    if is_there {
        Some(Asked {
            condition: asked.condition,
            passes: asked.passes,
            log: None,
            name: None,
        })
    } else {
        None
    }
}

/// Puts what is asked for behind others, if something is.
fn push<'a>(all: &mut Vec<Asked<'a>>, asked: Option<Asked<'a>>) -> Result<(), AllocError>
    ensures { OnOk result (map asked_view all.new.items ≡ map asked_view all.old.items ++ spec.listed (option_map asked_view asked.entry)) }
{
    if let Some(asked) = asked {
        all.push(asked)?;
    }
    Ok(())
}
