//! The text of a message, with the values of its expressions.
ghost use Rattle.std.specs.Prelude.{◌≡◌, ◌<◌, IfOk, MatchBool, MatchOption, MatchResult, Some, length, map, string_bytes};
ghost use Rattle.gang_model.specs.Debugger.Debugger.{Debugger, Setting};
ghost use Rattle.debug_session.specs.Sessions.{bare};
ghost use Rattle.log_points.specs.Points.{written_of};
ghost use Rattle.log_points.specs.Texts as spec;
ghost use Rattle.log_points.specs.Texts.{Adds, AddsText, IsClosed, IsLogText, IsPart, IsShown, IsWhole, Lacks, closes};

use crate::points::{MOST_TEXTS, Written};
use adapter_replies::{depth_of, reply_to};
use adapter_requests::{Context, Reply, Request};
use frame_expressions::ExpressionMachine;
use std::alloc::{AllocError, Global};

/// A text that stands before the first expression in braces, the expression, and what stands behind it.
#[derive(Clone, Copy)]
struct Part<'a> {
    before: &'a str,
    expression: &'a str,
    behind: &'a str,
}

/// Writes the text of a message behind others; where no room or no memory is left, it is left out.
pub(crate) fn add<M: ExpressionMachine>(
    alloc: Global,
    message: &str,
    machine: &M,
    written: &mut Written,
)
    ensures { (s : Setting) (d : Debugger) → M.stands machine.now s (bare d)
        → Adds s d message.now (written_of written.old) (written_of written.new) }
{
    if has_added(alloc, message, machine, &mut written.texts) {
        return;
    }
    written.is_cut = true;
}

/// Writes the text of a message behind others, and says whether it has.
fn has_added<M: ExpressionMachine>(
    alloc: Global,
    message: &str,
    machine: &M,
    texts: &mut Vec<String>,
) -> bool
    ensures { (s : Setting) (d : Debugger) → M.stands machine.now s (bare d)
        → MatchBool result ((length texts.old.items < 1000) × AddsText s d message.now (map string_bytes texts.old.items) (map string_bytes texts.new.items))
        (texts.new.items ≡ texts.old.items) }
{
    if texts.len() >= MOST_TEXTS {
        return false;
    }
    match push_text(alloc, message, machine, texts) {
        Ok(()) => true,
        Err(_) => false,
    }
}

/// Puts the text of a message behind others.
fn push_text<M: ExpressionMachine>(
    alloc: Global,
    message: &str,
    machine: &M,
    texts: &mut Vec<String>,
) -> Result<(), AllocError>
    ensures { (s : Setting) (d : Debugger) → M.stands machine.now s (bare d)
        → MatchResult result (λ _. AddsText s d message.now (map string_bytes texts.old.items) (map string_bytes texts.new.items))
        (λ _. texts.new.items ≡ texts.old.items) }
{
    let text = log_text(alloc, message, machine)?;
    texts.push(text)?;
    Ok(())
}

/// The text of a message, with the value of each expression in braces, or in brackets why it has none.
fn log_text<M: ExpressionMachine>(
    alloc: Global,
    message: &str,
    machine: &M,
) -> Result<String, AllocError>
    ensures { (s : Setting) (d : Debugger) → M.stands machine.now s (bare d)
        → IfOk result (λ text. IsLogText s d message.now (string_bytes text)) }
{
    let mut text = String::new(alloc);
    let mut rest = message;
    while let Some(part) = first_part(rest) {
        text.push_str(part.before)?;
        text.push_str(shown(alloc, part.expression, machine)?.as_str())?;
        rest = part.behind;
    }
    text.push_str(rest)?;
    Ok(text)
}

/// The first expression in braces, if there is one.
fn first_part(text: &str) -> Option<Part<'_>>
    ensures { MatchOption result (IsWhole text.now) (λ part. IsPart text.now part.before.now part.expression.now part.behind.now) }
{
    match text.split_once('{') {
        Some((before, inside)) => closed_part(before, inside),
        None => None,
    }
}

/// The expression that stands before the first brace that closes, if there is one.
fn closed_part<'a>(before: &'a str, inside: &'a str) -> Option<Part<'a>>
    ensures { MatchOption result (Lacks closes inside.now) (λ part. IsClosed before.now inside.now part.before.now part.expression.now part.behind.now) }
{
    match inside.split_once('}') {
        Some((expression, behind)) => Some(Part {
            before,
            expression,
            behind,
        }),
        None => None,
    }
}

/// The value of an expression in the top frame, as a list of watched expressions shows it; or in brackets why it has none.
fn shown<M: ExpressionMachine>(
    alloc: Global,
    expression: &str,
    machine: &M,
) -> Result<String, AllocError>
    ensures { (s : Setting) (d : Debugger) → M.stands machine.now s (bare d)
        → IfOk result (λ text. IsShown s d expression.now (string_bytes text)) }
{
    let request = Request::Evaluate {
        expression,
        frame: Some(depth_of(machine) as u64),
        context: Context::Watch,
        is_hexadecimal: false,
    };
    let told = reply_to(alloc, machine, &[], &request, false, None)?;
    let text = told_text(alloc, &told)?;
    Ok(text)
}

/// The text of what an expression is told.
fn told_text(alloc: Global, reply: &Reply) -> Result<String, AllocError>
    ensures { IfOk result (λ text. spec.told_text reply.now ≡ Some (string_bytes text)) }
{
    match reply {
        Reply::Evaluated { text, .. } => String::from_str(alloc, text.as_str()),
        Reply::Refused(why) => format!(in alloc; "({why})"),
        _ => Err(AllocError),
    }
}
