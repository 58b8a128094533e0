//! What replies tell, as JSON.
ghost use Rattle.std.specs.Prelude.{◌≡◌, ◌≤◌, IfOk, OnOk, codes};
ghost use Rattle.serde_json.specs.Data.{array, no_members, object};
ghost use Rattle.serde_json.specs.View.{members_view, view};
ghost use Rattle.adapter_messages.specs.Replies.{able, array_of, body_of, breakpoint, capabilities, completion, exception_filter, fault_text, file_name, file_scope, frames, known_scope, location, moved, not_watchable, only, scopes, source, thread, time, times, watchable, way_text, with_breakpoints, with_filters, with_others, with_requests};
ghost use Rattle.adapter_messages.specs.Replies as spec;
ghost use Rattle.adapter_messages.specs.Arguments.{way_number};

use crate::variables::variables;
use adapter_requests::{
    Breakpoint, BreakpointFault, Completion, Exception, Frame, Reply, Scopes, Thread, Way,
};
use debug_words::is_same;
use serde_json::{Map, Value, json, push, put};
use std::alloc::{AllocError, Global};
use std::path::Path;

/// What a reply to a command tells; an object without members where it tells nothing.
pub(crate) fn body_of(
    alloc: Global,
    command: &str,
    program: &str,
    reply: &Reply,
) -> Result<Value, AllocError>
    ensures { IfOk result (λ v. view v ≡ body_of command.now program.now reply.now) }
{
    match reply {
        Reply::Capabilities => capabilities(alloc),
        Reply::Breakpoints(made) => breakpoints(alloc, made),
        Reply::Locations(lines) => locations(alloc, lines),
        Reply::Targets(line) => targets(alloc, *line),
        Reply::Completions(shown) => completions(alloc, shown),
        Reply::Watchable(target) => watchable(alloc, target.as_str()),
        Reply::NotWatchable => not_watchable(alloc),
        Reply::Threads(shown) => threads(alloc, shown),
        Reply::Frames {
            frames: made,
            total,
        } => frames(alloc, program, made, *total),
        Reply::Scopes(shown) => scopes(alloc, shown),
        Reply::Variables(found) => variables(alloc, found),
        Reply::Set { text, reference } => {
            json!(in alloc; {"value": text.as_str(), "variablesReference": *reference})
        }
        Reply::Evaluated {
            text,
            reason: _,
            reference,
        } => json!(in alloc; {"result": text.as_str(), "variablesReference": *reference}),
        Reply::Exception(exception) => exception_value(alloc, exception),
        Reply::Moved(_) => moved(alloc, command),
        Reply::Done | Reply::Ended | Reply::Refused(_) | Reply::OutOfMemory => {
            Ok(nothing(alloc))
        }
    }
}

/// An object without members.
fn nothing(alloc: Global) -> Value
    ensures { view result ≡ object no_members }
{
    Value::Object(Map::new(alloc))
}

/// What a move is told: only the reply to `continue` has a member.
fn moved(alloc: Global, command: &str) -> Result<Value, AllocError>
    ensures { IfOk result (λ v. view v ≡ moved command.now) }
{
    if is_same(command.as_bytes(), b"continue") {
        json!(in alloc; {"allThreadsContinued": true})
    } else {
        Ok(nothing(alloc))
    }
}

/// What the adapter can do.
fn capabilities(alloc: Global) -> Result<Value, AllocError>
    ensures { IfOk result (λ v. view v ≡ capabilities) }
{
    let mut members = Map::new(alloc);
    put_filters(alloc, &mut members)?;
    put_requests(alloc, &mut members)?;
    put_breakpoints(alloc, &mut members)?;
    put_others(alloc, &mut members)?;
    Ok(Value::Object(members))
}

/// Puts the filters of exceptions beside others.
fn put_filters(alloc: Global, members: &mut Map<String, Value>) -> Result<(), AllocError>
    ensures { OnOk result (members_view members.new.entries ≡ with_filters (members_view members.old.entries)) }
{
    let filter = exception_filter(alloc)?;
    let filters = json!(in alloc; [filter])?;
    put(members, alloc, "exceptionBreakpointFilters", filters)
}

/// Puts beside others that requests are answered.
fn put_requests(alloc: Global, members: &mut Map<String, Value>) -> Result<(), AllocError>
    ensures { OnOk result (members_view members.new.entries ≡ with_requests (members_view members.old.entries)) }
{
    put_able(alloc, members, "supportsBreakpointLocationsRequest")?;
    put_able(alloc, members, "supportsCompletionsRequest")?;
    put_able(alloc, members, "supportsConfigurationDoneRequest")?;
    put_able(alloc, members, "supportsExceptionInfoRequest")?;
    put_able(alloc, members, "supportsGotoTargetsRequest")?;
    put_able(alloc, members, "supportsRestartRequest")?;
    put_able(alloc, members, "supportsTerminateRequest")
}

/// Puts beside others what breakpoints there are.
fn put_breakpoints(alloc: Global, members: &mut Map<String, Value>) -> Result<(), AllocError>
    ensures { OnOk result (members_view members.new.entries ≡ with_breakpoints (members_view members.old.entries)) }
{
    put_able(alloc, members, "supportsConditionalBreakpoints")?;
    put_able(alloc, members, "supportsDataBreakpoints")?;
    put_able(alloc, members, "supportsFunctionBreakpoints")?;
    put_able(alloc, members, "supportsHitConditionalBreakpoints")?;
    put_able(alloc, members, "supportsLogPoints")
}

/// Puts beside others what else the adapter can do.
fn put_others(alloc: Global, members: &mut Map<String, Value>) -> Result<(), AllocError>
    ensures { OnOk result (members_view members.new.entries ≡ with_others (members_view members.old.entries)) }
{
    put_able(alloc, members, "supportsDelayedStackTraceLoading")?;
    put_able(alloc, members, "supportsEvaluateForHovers")?;
    put_able(alloc, members, "supportsSetExpression")?;
    put_able(alloc, members, "supportsSetVariable")?;
    put_able(alloc, members, "supportsStepBack")?;
    put_able(alloc, members, "supportsValueFormattingOptions")
}

/// Puts beside others that the adapter can do what has a name.
fn put_able(alloc: Global, members: &mut Map<String, Value>, name: &str) -> Result<(), AllocError>
    ensures { OnOk result (members_view members.new.entries ≡ able name.now (members_view members.old.entries)) }
{
    put(members, alloc, name, Value::Bool(true))
}

/// The faults, which stop always.
fn exception_filter(alloc: Global) -> Result<Value, AllocError>
    ensures { IfOk result (λ v. view v ≡ exception_filter) }
{
    json!(in alloc; {
        "default": true,
        "description": "F1 to F5: each stops always, since no step goes past it",
        "filter": "faults",
        "label": "Faults"
    })
}

/// A fault at which the program stands still.
fn exception_value(alloc: Global, exception: &Exception) -> Result<Value, AllocError>
    ensures { IfOk result (λ v. view v ≡ spec.exception exception.now) }
{
    let name = exception.name.as_str();
    json!(in alloc; {
        "breakMode": "always",
        "description": exception.text.as_str(),
        "details": {"typeName": name},
        "exceptionId": name
    })
}

/// The breakpoints or watches that were asked for.
fn breakpoints(alloc: Global, made: &[Breakpoint]) -> Result<Value, AllocError>
    ensures { IfOk result (λ v. view v ≡ only (codes "breakpoints") (array_of breakpoint made.now)) }
{
    let mut list = Vec::new(alloc);
    for breakpoint in made {
        let shown = breakpoint_value(alloc, breakpoint)?;
        push(&mut list, shown)?;
    }
    json!(in alloc; {"breakpoints": Value::Array(list)})
}

/// A breakpoint or watch that was asked for.
fn breakpoint_value(alloc: Global, breakpoint: &Breakpoint) -> Result<Value, AllocError>
    ensures { IfOk result (λ v. view v ≡ spec.breakpoint breakpoint.now) }
{
    match *breakpoint {
        Breakpoint::Stands {
            number,
            line: Some(line),
        } => json!(in alloc; {"id": number, "line": line, "verified": true}),
        Breakpoint::Stands { number, line: None } => {
            json!(in alloc; {"id": number, "verified": true})
        }
        Breakpoint::Refused(fault) => {
            json!(in alloc; {"message": fault_text(fault), "verified": false})
        }
    }
}

/// The lines on which a breakpoint can stand.
fn locations(alloc: Global, lines: &[u32]) -> Result<Value, AllocError>
    ensures { IfOk result (λ v. view v ≡ only (codes "breakpoints") (array_of location lines.now)) }
{
    let mut list = Vec::new(alloc);
    for line in lines {
        let shown = location_value(alloc, *line)?;
        push(&mut list, shown)?;
    }
    json!(in alloc; {"breakpoints": Value::Array(list)})
}

/// A line on which a breakpoint can stand.
fn location_value(alloc: Global, line: u32) -> Result<Value, AllocError>
    ensures { IfOk result (λ v. view v ≡ location line) }
{
    json!(in alloc; {"line": line})
}

/// The times of a line, if there is one.
fn targets(alloc: Global, line: Option<u32>) -> Result<Value, AllocError>
    ensures { IfOk result (λ v. view v ≡ only (codes "targets") (array (times line))) }
{
    match line {
        None => json!(in alloc; {"targets": []}),
        Some(line) => {
            let next = time_value(alloc, line, Way::Forwards)?;
            let last = time_value(alloc, line, Way::Backwards)?;
            json!(in alloc; {"targets": [next, last]})
        }
    }
}

/// A time of a line to which the program can go.
fn time_value(alloc: Global, line: u32, way: Way) -> Result<Value, AllocError>
    ensures { IfOk result (λ v. view v ≡ time line way) }
{
    let which = way_text(way);
    let label = format!(in alloc; "line {line}, {which}")?;
    let id = u64::from(line) * 2 + way_number(way);
    json!(in alloc; {"id": id, "label": label.as_str(), "line": line})
}

/// Which time of a line it is.
fn way_text(way: Way) -> &'static str
    ensures { result.now ≡ way_text way }
{
    match way {
        Way::Forwards => "the next time",
        Way::Backwards => "the last time before",
    }
}

/// The number of a time of a line.
fn way_number(way: Way) -> u64
    ensures number { result ≡ way_number way }
    ensures small { result ≤ 1 }
{
    match way {
        Way::Forwards => 0,
        Way::Backwards => 1,
    }
}

/// The names that can stand in a text.
fn completions(alloc: Global, made: &[Completion]) -> Result<Value, AllocError>
    ensures { IfOk result (λ v. view v ≡ only (codes "targets") (array_of completion made.now)) }
{
    let mut list = Vec::new(alloc);
    for name in made {
        let shown = completion_value(alloc, name)?;
        push(&mut list, shown)?;
    }
    json!(in alloc; {"targets": Value::Array(list)})
}

/// A name that can stand in a text.
fn completion_value(alloc: Global, made: &Completion) -> Result<Value, AllocError>
    ensures { IfOk result (λ v. view v ≡ completion made.now) }
{
    json!(in alloc; {
        "label": made.name.as_str(),
        "length": made.many,
        "start": made.start
    })
}

/// Why a breakpoint or a watch is not there.
fn fault_text(fault: BreakpointFault) -> &'static str
    ensures { result.now ≡ fault_text fault }
{
    match fault {
        BreakpointFault::Unplaced => {
            "its line is no number from 1 to 4294967295, or its name or target is no text"
        }
        BreakpointFault::Logging => "only a breakpoint of a line has a log message",
        BreakpointFault::NoCondition => "its condition is no text of at most 256 bytes",
        BreakpointFault::NoExpression => "its condition is no expression",
        BreakpointFault::NoCount => {
            "its count is none of `N`, `>= N` and `> N`, with a first stop from 1 to 10000000"
        }
        BreakpointFault::NoMessage => "its log message is no text of at most 256 bytes",
        BreakpointFault::OtherSource => "this source is not the program's",
        BreakpointFault::NoStep => "no step stands on this line or behind it",
        BreakpointFault::NoFunction => "no function of this name",
        BreakpointFault::NotWatched => {
            "only scalars of the file, their lanes and elements of arrays are watched"
        }
        BreakpointFault::Full => "no more breakpoints and watches can be there",
    }
}

/// A target that can be watched.
fn watchable(alloc: Global, target: &str) -> Result<Value, AllocError>
    ensures { IfOk result (λ v. view v ≡ watchable target.now) }
{
    json!(in alloc; {
        "accessTypes": ["write"],
        "canPersist": false,
        "dataId": target,
        "description": target
    })
}

/// A variable that cannot be watched.
fn not_watchable(alloc: Global) -> Result<Value, AllocError>
    ensures { IfOk result (λ v. view v ≡ not_watchable) }
{
    json!(in alloc; {
        "dataId": null,
        "description": "only scalars of the file, their lanes and elements of arrays are watched"
    })
}

/// The threads.
fn threads(alloc: Global, made: &[Thread]) -> Result<Value, AllocError>
    ensures { IfOk result (λ v. view v ≡ only (codes "threads") (array_of thread made.now)) }
{
    let mut list = Vec::new(alloc);
    for thread in made {
        let shown = thread_value(alloc, thread)?;
        push(&mut list, shown)?;
    }
    json!(in alloc; {"threads": Value::Array(list)})
}

/// A thread.
fn thread_value(alloc: Global, thread: &Thread) -> Result<Value, AllocError>
    ensures { IfOk result (λ v. view v ≡ spec.thread thread.now) }
{
    json!(in alloc; {"id": thread.id, "name": thread.name.as_str()})
}

/// The frames that were asked for, the top one first, and how many there are.
fn frames(alloc: Global, program: &str, made: &[Frame], total: usize) -> Result<Value, AllocError>
    ensures { IfOk result (λ v. view v ≡ frames program.now made.now total) }
{
    let mut list = Vec::new(alloc);
    for frame in made {
        let shown = frame_value(alloc, program, frame)?;
        push(&mut list, shown)?;
    }
    json!(in alloc; {"stackFrames": Value::Array(list), "totalFrames": total})
}

/// A frame.
fn frame_value(alloc: Global, program: &str, frame: &Frame) -> Result<Value, AllocError>
    ensures { IfOk result (λ v. view v ≡ spec.frame program.now frame.now) }
{
    let source = source_value(alloc, program)?;
    json!(in alloc; {
        "column": frame.column,
        "id": frame.depth,
        "line": frame.line,
        "name": frame.name.as_str(),
        "presentationHint": "normal",
        "source": source
    })
}

/// The program's source.
fn source_value(alloc: Global, program: &str) -> Result<Value, AllocError>
    ensures { IfOk result (λ v. view v ≡ source program.now) }
{
    let name = file_name(program);
    json!(in alloc; {"name": name, "path": program})
}

/// The last part of a path, or the path where it has none.
fn file_name(path: &str) -> &str
    ensures { result.now ≡ file_name path.now }
{
    match Path::new(path).file_name() {
        Some(name) => name,
        None => path,
    }
}

/// The scopes of a frame: those of its call first, if there is one.
fn scopes(alloc: Global, shown: &Scopes) -> Result<Value, AllocError>
    ensures { IfOk result (λ v. view v ≡ only (codes "scopes") (scopes shown.now)) }
{
    let file = file_scope(alloc, shown.file)?;
    match shown.call {
        None => json!(in alloc; {"scopes": [file]}),
        Some(call) => {
            let locals = known_scope(alloc, "Locals", "locals", call.locals)?;
            let arguments = known_scope(alloc, "Arguments", "arguments", call.arguments)?;
            json!(in alloc; {"scopes": [locals, arguments, file]})
        }
    }
}

/// A scope of a kind that the protocol knows.
fn known_scope(alloc: Global, name: &str, kind: &str, reference: u64) -> Result<Value, AllocError>
    ensures { IfOk result (λ v. view v ≡ known_scope name.now kind.now reference) }
{
    json!(in alloc; {
        "expensive": false,
        "name": name,
        "presentationHint": kind,
        "variablesReference": reference
    })
}

/// The variables of the file.
fn file_scope(alloc: Global, reference: u64) -> Result<Value, AllocError>
    ensures { IfOk result (λ v. view v ≡ file_scope reference) }
{
    json!(in alloc; {"expensive": false, "name": "File", "variablesReference": reference})
}
