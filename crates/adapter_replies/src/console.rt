//! What is asked for in the console that is no command.
ghost use Rattle.std.specs.Prelude.{◌≡◌, IfOk, flat_map, map, string_bytes};
ghost use Rattle.gang_model.specs.Debugger.Debugger.{Debugger, Setting};
ghost use Rattle.debug_traits.specs.Frames.{listed_parameters_at};
ghost use Rattle.adapter_requests.specs.declared.request.Context.TheVariants.{Console};
ghost use Rattle.adapter_replies.specs.Console as spec;
ghost use Rattle.adapter_replies.specs.Console.{parameter_line};
ghost use Rattle.adapter_replies.specs.Told.{IsTold};
ghost use Rattle.adapter_replies.specs.Variables.{told_each, variable_view};
ghost use Rattle.adapter_replies.specs.declared.places.Place.TheVariants as place;
ghost use Rattle.adapter_replies.specs.declared.places.Scope.TheVariants.{Arguments};

use crate::expressions::plain_value;
use crate::forms::Form;
use crate::hints::{Hinted, hint_in};
use crate::places::Scope;
use crate::scopes::of_frame;
use crate::texts::without_end;
use adapter_requests::{Context, Reply, Variable};
use debug_traits::FramedMachine;
use debug_words::is_same;
use std::alloc::{AllocError, Global};

/// The commands that move forwards.
const FORWARDS: &str = "step [N], next [N], finish, continue: forwards\n";

/// Those that move back.
const BACK: &str =
    "reverse-step [N], reverse-next [N], reverse-finish, reverse-continue, undo: back\n";

/// Those that show and set values.
const VALUES: &str = "print T, set var T = V, info locals, backtrace: values and frames\n";

/// Those of breakpoints and watches.
const STOPS: &str = "break LINE, watch T, delete [N], info breakpoints: stops\n";

/// That of what can be taken back.
const HISTORY: &str =
    "set record full insn-number-max N: how many steps and changes can be taken back\n";

/// Words of the prompt.
const WORDS: &str =
    "fin, where, d 2, i b, set T = V: words of the prompt do the same, unless a variable has this name\n";

/// What else can be typed.
const OTHERS: &str =
    "T is a variable, or one lane or element of it, as x[2]; any other line is an expression, as x + 1";

/// What a text asks for that names no variable and is no command.
#[derive(Clone, Copy)]
pub(crate) enum Asked {
    /// What can be typed in the console.
    Help,
    /// The parameters of a frame.
    Parameters,
    /// The local variables of a frame.
    Locals,
    /// What to do in place of a line that begins with a word of the prompt or of GDB.
    Words(Hinted),
    /// The value of an expression.
    Value,
}

/// What a text asks for: in the console help, the parameters, the local variables or what to do in place of a line, and else the value of an
/// expression.
pub(crate) fn asked_in(context: Context, text: &str) -> Asked
    ensures { result ≡ spec.asked_in context text.now }
{
    match context {
        Context::Console => asked_by(text),
        Context::Hover | Context::Watch => Asked::Value,
    }
}

/// What a line of the console asks for.
fn asked_by(text: &str) -> Asked
    ensures { result ≡ spec.asked_in Console text.now }
{
    if is_help(text) {
        Asked::Help
    } else if is_same(text.as_bytes(), b"info args") {
        Asked::Parameters
    } else if is_same(text.as_bytes(), b"info locals") {
        Asked::Locals
    } else {
        words_or_value(hint_in(text.as_bytes()))
    }
}

/// What to do in place of a line, where it has a hint, else the value of an expression.
fn words_or_value(hinted: Option<Hinted>) -> Asked
    ensures { result ≡ spec.words_or_value hinted }
{
    match hinted {
        Some(hinted) => Asked::Words(hinted),
        None => Asked::Value,
    }
}

/// Whether a text is `help` alone, or with a word behind it.
fn is_help(text: &str) -> bool
    ensures { result ≡ spec.is_help text.now }
{
    is_same(text.as_bytes(), b"help") || text.as_bytes().starts_with(b"help ")
}

/// What can be typed in the console.
pub(crate) fn help_reply(alloc: Global) -> Result<Reply, AllocError>
    ensures { IfOk result (IsTold spec.help_text) }
{
    let mut text = commands_text(alloc)?;
    text.push_str(WORDS)?;
    text.push_str(OTHERS)?;
    Ok(plain_value(text))
}

/// The commands, in the debugger's own words.
fn commands_text(alloc: Global) -> Result<String, AllocError>
    ensures { IfOk result (λ text. string_bytes text ≡ spec.commands_text) }
{
    let mut text = String::from_str(alloc, FORWARDS)?;
    text.push_str(BACK)?;
    text.push_str(VALUES)?;
    text.push_str(STOPS)?;
    text.push_str(HISTORY)?;
    Ok(text)
}

/// The parameters of the frame at a depth.
pub(crate) fn parameters_reply<M: FramedMachine>(
    alloc: Global,
    machine: &M,
    form: Form,
    depth: usize,
) -> Result<Reply, AllocError>
    ensures { (s : Setting) (d : Debugger) → M.stands machine.now s d
        → IfOk result (IsTold (spec.parameters_text (told_each form s d depth (place.Parts Arguments depth) 0 (listed_parameters_at s d depth)))) }
{
    let variables = of_frame(alloc, machine, form, Scope::Arguments, depth)?;
    let text = parameters_text(alloc, variables.as_slice())?;
    Ok(plain_value(text))
}

/// A line for each parameter, or that there is none.
fn parameters_text(alloc: Global, variables: &[Variable]) -> Result<String, AllocError>
    ensures { IfOk result (λ text. string_bytes text ≡ spec.parameters_text (map variable_view variables.now)) }
{
    match variables {
        [] => String::from_str(alloc, "no parameters"),
        [_, ..] => {
            let lines = parameter_lines(alloc, variables)?;
            String::from_utf8_lossy(alloc, without_end(lines.as_bytes()))
        }
    }
}

/// A line for each of some parameters.
fn parameter_lines(alloc: Global, variables: &[Variable]) -> Result<String, AllocError>
    ensures { IfOk result (λ lines. string_bytes lines ≡ flat_map parameter_line (map variable_view variables.now)) }
{
    let mut lines = String::new(alloc);
    for variable in variables {
        let line = parameter_line(alloc, variable)?;
        lines.push_str(line.as_str())?;
    }
    Ok(lines)
}

/// The line of a parameter.
fn parameter_line(alloc: Global, variable: &Variable) -> Result<String, AllocError>
    ensures { IfOk result (λ line. string_bytes line ≡ parameter_line (variable_view variable.now)) }
{
    let name = variable.name.as_str();
    let value = variable.value.as_str();
    format!(in alloc; "{name} = {value}\n")
}
