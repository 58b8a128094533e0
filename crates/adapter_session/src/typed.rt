//! Lines of the console in the words of the prompt.
ghost use Rattle.std.specs.Prelude.{◌≡◌, IfOk, is_some, option_map, string_bytes};
ghost use Rattle.gang_model.specs.Debugger.Debugger.{Debugger, Setting};
ghost use Rattle.gang_model.specs.Texts.CommandText.{command_of};
ghost use Rattle.prompt_lines.specs.Readings.{bytes_option};
ghost use Rattle.adapter_replies.specs.Completions.{frame_or};
ghost use Rattle.adapter_session.specs.Typed as spec;
ghost use Rattle.adapter_session.specs.Typed.{typed_view};

use adapter_replies::depth_of;
use adapter_requests::{Context, Request};
use debug_commands::read_command;
use debug_traits::FramedMachine;
use prompt_lines::{Kind, Look, is_alone, read_line, stripped};
use std::alloc::{AllocError, Global};

/// A line of the console, the frame in which it is looked up, and whether it asks for hexadecimal numbers.
#[derive(Clone, Copy)]
pub(crate) struct Typed<'a> {
    pub(crate) line: &'a str,
    pub(crate) frame: Option<u64>,
    pub(crate) is_hexadecimal: bool,
}

/// The line that a request asks for in the console.
pub(crate) fn typed_in<'a>(request: &Request<'a>) -> Option<Typed<'a>>
    ensures { option_map typed_view result ≡ spec.typed_in request.now }
{
    match request {
        Request::Evaluate {
            expression,
            frame,
            context: Context::Console,
            is_hexadecimal,
        } => Some(Typed {
            line: expression,
            frame: *frame,
            is_hexadecimal: *is_hexadecimal,
        }),
        _ => None,
    }
}

/// The line that is done for one that was typed: that one, where it spells a command or is the name of a variable; else the debugger's
/// own, where the prompt reads it as one command.
pub(crate) fn meant_line<M: FramedMachine>(
    alloc: Global,
    machine: &M,
    typed: Typed<'_>,
) -> Result<String, AllocError>
    ensures { (s : Setting) (d : Debugger) → M.stands machine.now s d
        → IfOk result (λ meant. string_bytes meant ≡ spec.meant_line (spec.is_variable s d (typed_view typed.entry)) typed.entry.line.now) }
{
    if is_variable(machine, typed) || is_command(typed.line.as_bytes()) {
        String::from_str(alloc, typed.line)
    } else {
        own_or_typed(alloc, typed.line)
    }
}

/// Whether a line is the name of a variable that its frame finds.
fn is_variable<M: FramedMachine>(machine: &M, typed: Typed<'_>) -> bool
    ensures { (s : Setting) (d : Debugger) → M.stands machine.now s d → result ≡ spec.is_variable s d (typed_view typed.entry) }
{
    let depth = frame_or(depth_of(machine), typed.frame);
    machine
        .find_at(depth, stripped(typed.line.as_bytes()))
        .is_some()
}

/// The depth of the frame of a number, or of the top one.
fn frame_or(top: usize, frame: Option<u64>) -> usize
    ensures { result ≡ frame_or top frame }
{
    match frame {
        None => top,
        Some(frame) => frame as usize,
    }
}

/// The debugger's own line for one that was typed, as the prompt reads it; else that one.
fn own_or_typed(alloc: Global, line: &str) -> Result<String, AllocError>
    ensures { IfOk result (λ meant. string_bytes meant ≡ spec.or_typed (spec.own_of line.now) line.now) }
{
    let read = read_line(line.as_bytes());
    match own_line(read.kind, read.text.as_slice()) {
        None => String::from_str(alloc, line),
        Some(own) => String::from_utf8_lossy(alloc, own),
    }
}

/// The debugger's own line for a command line that the prompt reads as of a kind; none where that is no command, or more than one.
fn own_line(kind: Kind, text: &[u8]) -> Option<&[u8]>
    ensures { bytes_option result ≡ spec.own_line kind text.now }
{
    match kind {
        Kind::Own | Kind::Finish | Kind::Set | Kind::Break | Kind::Watch | Kind::Delete => {
            if_spelled(text)
        }
        Kind::Until => if_alone(b"next", text),
        Kind::Look(look) => own_look(look, text),
        _ => None,
    }
}

/// The debugger's own line for what is looked at.
fn own_look(look: Look, text: &[u8]) -> Option<&'static [u8]>
    ensures { bytes_option result ≡ spec.own_look look text.now }
{
    match look {
        Look::Frames => if_alone(b"backtrace", text),
        Look::Locals => if_blank(b"info locals", text),
        Look::Arguments => if_blank(b"info args", text),
        Look::Help => if_blank(b"help", text),
        _ => None,
    }
}

/// A command line, where it spells a command.
fn if_spelled(text: &[u8]) -> Option<&[u8]>
    ensures { bytes_option result ≡ spec.if_spelled text.now }
{
    if is_command(text) { Some(text) } else { None }
}

/// Whether a line spells a command.
fn is_command(line: &[u8]) -> bool
    ensures { result ≡ is_some (command_of line.now) }
{
    read_command(line).is_some()
}

/// These words, where a command line is one word alone.
fn if_alone(words: &'static [u8], text: &[u8]) -> Option<&'static [u8]>
    ensures { bytes_option result ≡ spec.if_alone words.now text.now }
{
    if is_alone(text) { Some(words) } else { None }
}

/// These words, where nothing but blanks stands in a command line.
fn if_blank(words: &'static [u8], text: &[u8]) -> Option<&'static [u8]>
    ensures { bytes_option result ≡ spec.if_blank words.now text.now }
{
    if stripped(text).is_empty() {
        Some(words)
    } else {
        None
    }
}
