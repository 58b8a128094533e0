//! The names that can stand where a text has its cursor.
ghost use Rattle.std.specs.Prelude.{◌≡◌, ◌≤◌, ◌++◌, [], ◌∷◌, IfOk, length, map, string_bytes};
ghost use Rattle.std.specs.List.{suffix_len};
ghost use Rattle.gang_model.specs.Debugger.Debugger.{Debugger, Setting};
ghost use Rattle.gang_model.specs.Texts.Spellings.{is_letter};
ghost use Rattle.adapter_replies.specs.Completions as spec;
ghost use Rattle.adapter_replies.specs.Completions.{completed, completion_view, is_name_byte, named};
ghost use Rattle.adapter_replies.specs.Variables.{variable_view};

use crate::columns::utf16_length;
use crate::forms::Form;
use crate::places::{Scope, depth_of};
use crate::scopes::{of_file, of_frame};
use adapter_requests::{Completion, Variable};
use debug_traits::FramedMachine;
use debug_words::is_digit;
use std::alloc::{AllocError, Global};

/// The debugger's commands by their whole words.
const COMMANDS: [&str; 19] = [
    "step",
    "next",
    "finish",
    "continue",
    "reverse-step",
    "reverse-next",
    "reverse-continue",
    "reverse-finish",
    "undo",
    "print",
    "set var",
    "set record full insn-number-max",
    "break",
    "watch",
    "delete",
    "info breakpoints",
    "info locals",
    "backtrace",
    "quit",
];

/// The names that can stand at the end of a text where the frame at a depth stands.
pub(crate) fn completions<M: FramedMachine>(
    alloc: Global,
    machine: &M,
    depth: usize,
    front: &[u8],
) -> Result<Vec<Completion>, AllocError>
    ensures { (s : Setting) (d : Debugger) → M.stands machine.now s d
        → IfOk result (λ told. map completion_view told.items ≡ spec.completions s d depth front.now) }
{
    let mut told = commands(alloc, front)?;
    push_frame(alloc, machine, Scope::Locals, depth, front, &mut told)?;
    push_frame(alloc, machine, Scope::Arguments, depth, front, &mut told)?;
    push_file(alloc, machine, front, &mut told)?;
    Ok(told)
}

/// The commands that can stand in place of a text.
fn commands(alloc: Global, front: &[u8]) -> Result<Vec<Completion>, AllocError>
    ensures { IfOk result (λ told. map completion_view told.items ≡ completed front.now (length front.now) spec.command_names) }
{
    let mut told = Vec::new(alloc);
    push_commands(alloc, front, &COMMANDS, &mut told)?;
    Ok(told)
}

/// Puts the names of variables of the frame at a depth behind others.
fn push_frame<M: FramedMachine>(
    alloc: Global,
    machine: &M,
    scope: Scope,
    depth: usize,
    front: &[u8],
    told: &mut Vec<Completion>,
) -> Result<(), AllocError>
    ensures { (s : Setting) (d : Debugger) → M.stands machine.now s d
        → IfOk result (λ _. map completion_view told.new.items ≡ map completion_view told.old.items ++ spec.of_frame s d scope depth front.now) }
{
    let variables = of_frame(alloc, machine, Form::Value, scope, depth)?;
    push_variables(alloc, front, variables.as_slice(), told)
}

/// Puts the names of variables of the file behind others.
fn push_file<M: FramedMachine>(
    alloc: Global,
    machine: &M,
    front: &[u8],
    told: &mut Vec<Completion>,
) -> Result<(), AllocError>
    ensures { (s : Setting) (d : Debugger) → M.stands machine.now s d
        → IfOk result (λ _. map completion_view told.new.items ≡ map completion_view told.old.items ++ spec.of_file s d front.now) }
{
    let variables = of_file(alloc, machine, Form::Value, depth_of(machine))?;
    push_variables(alloc, front, variables.as_slice(), told)
}

/// Puts those commands behind others that can stand in place of a text.
fn push_commands(
    alloc: Global,
    front: &[u8],
    names: &[&str],
    told: &mut Vec<Completion>,
) -> Result<(), AllocError>
    ensures { IfOk result (λ _. map completion_view told.new.items
        ≡ map completion_view told.old.items ++ completed front.now (length front.now) (map (λ name. name.now) names.now)) }
{
    for name in names {
        push_name(alloc, front, front.len(), *name, told)?;
    }
    Ok(())
}

/// Puts those variables behind others whose names can stand in place of the name at the end of a text.
fn push_variables(
    alloc: Global,
    front: &[u8],
    variables: &[Variable],
    told: &mut Vec<Completion>,
) -> Result<(), AllocError>
    ensures { IfOk result (λ _. map completion_view told.new.items
        ≡ map completion_view told.old.items ++ named front.now (map variable_view variables.now)) }
{
    let many = name_length(front);
    for variable in variables {
        push_name(alloc, front, many, variable.name.as_str(), told)?;
    }
    Ok(())
}

/// Puts a name behind others, if it can stand in place of so many bytes at the end of a text.
fn push_name(
    alloc: Global,
    front: &[u8],
    many: usize,
    name: &str,
    told: &mut Vec<Completion>,
) -> Result<(), AllocError>
    requires { many ≤ length front.now }
    ensures { IfOk result (λ _. map completion_view told.new.items ≡ map completion_view told.old.items ++ completed front.now many (name.now ∷ [])) }
{
    let place = front.len() - many;
    if name.as_bytes().starts_with(&front[place..]) {
        told.push(Completion {
            name: String::from_str(alloc, name)?,
            start: utf16_length(&front[..place]) + 1,
            many: utf16_length(&front[place..]),
        })?;
    }
    Ok(())
}

/// How many bytes the name at the end of a text has.
fn name_length(text: &[u8]) -> usize
    ensures run { result ≡ suffix_len is_name_byte text.now }
    ensures within { result ≤ length text.now }
{
    text.iter()
        .rev()
        .take_while(|byte| is_name_byte(**byte))
        .count()
}

/// Whether a byte can stand in a name.
pub(crate) fn is_name_byte(byte: u8) -> bool
    ensures { result ≡ is_name_byte byte }
{
    is_letter(byte) || is_digit(byte)
}

fn is_letter(byte: u8) -> bool
    ensures { result ≡ is_letter byte }
{
    matches!(byte, b'a'..=b'z' | b'A'..=b'Z' | b'_')
}
