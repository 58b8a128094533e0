//! What a line of the console does besides what it tells.
ghost use Rattle.std.specs.Prelude.{◌≡◌};
ghost use Rattle.gang_model.specs.Debugger.Debugger.{Debugger, Setting};
ghost use Rattle.gang_model.specs.Texts.CommandText.{command_of};
ghost use Rattle.debug_commands.specs.Views.{option_view};
ghost use Rattle.prompt_lines.specs.Readings.{spelled};
ghost use Rattle.adapter_replies.specs.Completions.{frame_or};
ghost use Rattle.adapter_server.specs.Effects as spec;

use adapter_replies::depth_of;
use adapter_requests::{Context, Request};
use debug_commands::{Command, read_command};
use debug_traits::FramedMachine;
use prompt_lines::{Kind, PromptLine, read_line, stripped};

/// What a line of the console does.
#[derive(Clone, Copy, Debug, PartialEq, Eq)]
pub(crate) enum Effect {
    /// It sets a value.
    Sets,
    /// It ends the session.
    Quits,
    /// Neither.
    Tells,
}

/// Whether a request asks for a value to be set.
pub(crate) fn asks_to_set(request: &Request<'_>) -> bool
    ensures { result ≡ spec.asks_to_set request.now }
{
    match request {
        Request::SetVariable { .. } | Request::SetExpression { .. } => true,
        Request::Evaluate {
            expression,
            context: Context::Console,
            ..
        } => sets(line_effect(expression.as_bytes())),
        _ => false,
    }
}

/// Whether a request ends the session.
pub(crate) fn asks_to_end<M: FramedMachine>(machine: &M, request: &Request<'_>) -> bool
    ensures { (s : Setting) (d : Debugger) → M.stands machine.now s d → result ≡ spec.asks_to_end s d request.now }
{
    match request {
        Request::Terminate => true,
        Request::Evaluate {
            expression,
            frame,
            context: Context::Console,
            ..
        } => quits(line_effect(expression.as_bytes())) && !is_variable(machine, expression, *frame),
        _ => false,
    }
}

fn sets(effect: Effect) -> bool
    ensures { result ≡ spec.sets effect }
{
    matches!(effect, Effect::Sets)
}

fn quits(effect: Effect) -> bool
    ensures { result ≡ spec.quits effect }
{
    matches!(effect, Effect::Quits)
}

/// What a line does: in the debugger's words, and else in the prompt's.
fn line_effect(line: &[u8]) -> Effect
    ensures { result ≡ spec.line_effect line.now }
{
    match read_command(line) {
        None => effect_read(&read_line(line)),
        Some(command) => effect_of(Some(command)),
    }
}

/// What a line does that the prompt reads so.
fn effect_read(read: &PromptLine) -> Effect
    ensures { result ≡ spec.effect_read (spelled read.now) }
{
    if is_command_line(read.kind) {
        effect_of(read_command(read.text.as_slice()))
    } else {
        Effect::Tells
    }
}

/// Whether a line that the prompt reads as of a kind is a command line of the debugger.
fn is_command_line(kind: Kind) -> bool
    ensures { result ≡ spec.is_command_line kind }
{
    matches!(
        kind,
        Kind::Own | Kind::Finish | Kind::Set | Kind::Break | Kind::Watch | Kind::Delete
    )
}

/// What a command does, if there is one.
fn effect_of(command: Option<Command<'_>>) -> Effect
    ensures { result ≡ spec.effect_of (option_view command.entry) }
{
    match command {
        Some(Command::Set { .. }) => Effect::Sets,
        Some(Command::Quit) => Effect::Quits,
        _ => Effect::Tells,
    }
}

/// Whether a line is the name of a variable that its frame finds.
fn is_variable<M: FramedMachine>(machine: &M, line: &str, frame: Option<u64>) -> bool
    ensures { (s : Setting) (d : Debugger) → M.stands machine.now s d → result ≡ spec.is_variable s d line.now frame }
{
    let depth = frame_or(depth_of(machine), frame);
    machine.find_at(depth, stripped(line.as_bytes())).is_some()
}

/// The depth of the frame of a number, or of the top one.
fn frame_or(top: usize, frame: Option<u64>) -> usize
    ensures { result ≡ frame_or top frame }
{
    match frame {
        None => top,
        Some(frame) => frame as usize,
    }
}
