//! Replies and events as JSON.
ghost use Rattle.std.specs.Prelude.{◌≡◌, IfOk, option_map};
ghost use Rattle.serde_json.specs.View.{view};
ghost use Rattle.adapter_messages.specs.Messages.{error, event, failure, has_brace, reason_text, response, shows_user};
ghost use Rattle.adapter_messages.specs.Replies.{change_body, message_of, output_body, refusal, stop_body};

use crate::bodies::body_of;
use crate::names::{Name, named};
use crate::requests::Head;
use adapter_requests::{Reply, StopReason};
use serde_json::{Value, json};
use std::alloc::{AllocError, Global};

/// The reply to a request, as the message of a number; the program's source has this path.
///
/// # Errors
///
/// Out of memory.
pub fn reply_message(
    alloc: Global,
    number: u64,
    head: Head<'_>,
    program: &str,
    reply: &Reply,
) -> Result<Value, AllocError>
    ensures { IfOk result (λ v. view v ≡ message_of number head.entry.number head.entry.command.now program.now reply.now) }
{
    if let Some(text) = refusal(reply) {
        return failure_message(alloc, number, head, text);
    }
    let body = body_of(alloc, head.command, program, reply)?;
    response_message(alloc, number, head, body)
}

/// Why a reply refuses its request, if it does.
fn refusal(reply: &Reply) -> Option<&str>
    ensures { option_map (λ text. text.now) result ≡ refusal reply.now }
{
    match reply {
        Reply::Refused(text) => Some(text.as_str()),
        Reply::OutOfMemory => Some("out of memory"),
        _ => None,
    }
}

/// The reply to a request that is done, with what it tells.
fn response_message(
    alloc: Global,
    number: u64,
    head: Head<'_>,
    body: Value,
) -> Result<Value, AllocError>
    ensures { IfOk result (λ v. view v ≡ response number head.entry.number head.entry.command.now (view body)) }
{
    let request = head.number;
    let command = head.command;
    json!(in alloc; {
        "seq": number,
        "type": "response",
        "request_seq": request,
        "success": true,
        "command": command,
        "body": body
    })
}

/// The reply to a request that is refused, with the reason.
pub fn failure_message(
    alloc: Global,
    number: u64,
    head: Head<'_>,
    text: &str,
) -> Result<Value, AllocError>
    ensures { IfOk result (λ v. view v ≡ failure number head.entry.number head.entry.command.now text.now) }
{
    let error = error_value(alloc, shows_user(named(head.command)), text)?;
    let request = head.number;
    let command = head.command;
    json!(in alloc; {
        "seq": number,
        "type": "response",
        "request_seq": request,
        "success": false,
        "command": command,
        "message": text,
        "body": {"error": error}
    })
}

/// An error by its text, in which braces name no variable.
fn error_value(alloc: Global, shows_user: bool, text: &str) -> Result<Value, AllocError>
    ensures { IfOk result (λ v. view v ≡ error shows_user text.now) }
{
    if has_brace(text.as_bytes()) {
        json!(in alloc; {
            "id": 1u64,
            "format": "{text}",
            "variables": {"text": text},
            "showUser": shows_user
        })
    } else {
        json!(in alloc; {"id": 1u64, "format": text, "showUser": shows_user})
    }
}

/// Whether a text has a brace, by which a format names a variable.
fn has_brace(text: &[u8]) -> bool
    ensures { result ≡ has_brace text.now }
{
    text.iter().any(|byte| matches!(*byte, b'{' | b'}'))
}

/// Whether the user is shown why a request was refused: what editors ask for by themselves, or show in the place of a value, is
/// refused quietly.
fn shows_user(name: Option<Name>) -> bool
    ensures { result ≡ shows_user name }
{
    !matches!(
        name,
        Some(
            Name::BreakpointLocations
                | Name::ExceptionInfo
                | Name::DataBreakpointInfo
                | Name::StackTrace
                | Name::Scopes
                | Name::Variables
                | Name::Completions
                | Name::Evaluate
        )
    )
}

/// An event of this name, with what it tells.
pub fn event_message(
    alloc: Global,
    number: u64,
    name: &str,
    body: Value,
) -> Result<Value, AllocError>
    ensures { IfOk result (λ v. view v ≡ event number name.now (view body)) }
{
    json!(in alloc; {
        "seq": number,
        "type": "event",
        "event": name,
        "body": body
    })
}

/// What the event of a stop tells: why the program stands still, the thread that is shown first, and the debugger's text of it.
pub fn stop_body(
    alloc: Global,
    reason: StopReason,
    thread: u64,
    text: &str,
) -> Result<Value, AllocError>
    ensures { IfOk result (λ v. view v ≡ stop_body reason thread text.now) }
{
    let why = reason_text(reason);
    match reason {
        StopReason::Breakpoint(id) | StopReason::DataBreakpoint(id) => json!(in alloc; {
            "reason": why,
            "description": text,
            "text": text,
            "threadId": thread,
            "allThreadsStopped": true,
            "hitBreakpointIds": [id]
        }),
        _ => json!(in alloc; {
            "reason": why,
            "description": text,
            "text": text,
            "threadId": thread,
            "allThreadsStopped": true
        }),
    }
}

/// The protocol's word for why a program stands still.
fn reason_text(reason: StopReason) -> &'static str
    ensures { result.now ≡ reason_text reason }
{
    match reason {
        StopReason::Entry => "entry",
        StopReason::Step => "step",
        StopReason::Breakpoint(_) => "breakpoint",
        StopReason::DataBreakpoint(_) => "data breakpoint",
        StopReason::Exception { .. } => "exception",
        StopReason::Pause => "pause",
        StopReason::Goto => "goto",
    }
}

/// What the event of a change tells: that the values of variables are to be asked for anew.
pub fn change_body(alloc: Global) -> Result<Value, AllocError>
    ensures { IfOk result (λ v. view v ≡ change_body) }
{
    json!(in alloc; {"areas": ["variables"]})
}

/// What the event of an output tells: a text for the console.
pub fn output_body(alloc: Global, text: &str) -> Result<Value, AllocError>
    ensures { IfOk result (λ v. view v ≡ output_body text.now) }
{
    json!(in alloc; {"category": "console", "output": text})
}
